//! The shape of tables: declarations with numbers in place of names, and their size.
#![tactic(auto)]

mod channels;
mod constraints;
mod copying;
mod draft;
mod fault;
mod flushes;
mod forms;
mod levels;
mod limits;
mod lookup;
mod no_memory;
mod numbering;
mod numbers;
mod resolving;
mod shape;
mod size;
mod size_stop;
mod width;

pub use fault::{ShapeFault, ShapeKind, ShapeStop};
pub use limits::{
    MAX_BLOCK_LOG, MAX_BOUNDARIES, MAX_CHANNEL_WIDTH, MAX_CHANNELS, MAX_COLUMNS, MAX_CONSTRAINTS,
    MAX_DEGREE, MAX_FLUSHES, MAX_ROWS, MAX_SIZE_LOG, MAX_TABLES, MAX_TERMS,
};
pub use no_memory::NoMemory;
pub use resolving::{resolve, shaped_where_meant};
pub use shape::{
    BoundaryShape, BoundaryShapes, ChannelShape, ChannelShapes, ColumnKind, ColumnShape,
    ColumnShapes, ConstraintShape, ConstraintShapes, FlushShape, FlushShapes, Numbers32, Shape,
    ShapeExpr, ShapeExprs, ShapeForm, ShapeTerm, ShapeTerms, TableShape, TableShapes,
};
pub use size::{ceil_log, size_log};
pub use size_stop::SizeStop;
