//! The law of the lowered statement.

ghost use Rattle.oracle_lowering.specs.Laws.{SatisfiedIsLowered};

/// Values that satisfy tables satisfy the lowered statement, whatever the challenges: tables of no
/// rows, rows that aren't taken, rows that fill a table up and channels without flushes among them.
pub fn satisfied_is_lowered()
    ensures { SatisfiedIsLowered }
{}
