/// Calls a generic function at the type of a level: `by_level!(level, f(x, y))` is
/// `f::<B1>(x, y)` at level 0, and so on up to `f::<B128>(x, y)` at level 7 and above.
#[macro_export]
macro_rules! by_level {
    ($level:expr, $function:ident($($argument:expr),* $(,)?)) => {
        match $level {
            0 => $function::<$crate::B1>($($argument),*),
            1 => $function::<$crate::B2>($($argument),*),
            2 => $function::<$crate::B4>($($argument),*),
            3 => $function::<$crate::B8>($($argument),*),
            4 => $function::<$crate::B16>($($argument),*),
            5 => $function::<$crate::B32>($($argument),*),
            6 => $function::<$crate::B64>($($argument),*),
            _ => $function::<$crate::B128>($($argument),*),
        }
    };
}
