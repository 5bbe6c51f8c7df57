//! Statements of macros (LEF/DEF 5.8, "Macro").

use leg_lib_records::{RawExtent, RawPoint};

/// What the statements of a macro give for it.
#[derive(Clone, Copy)]
pub struct MacroStatements {
    pub size: RawExtent,
    pub origin: RawPoint,
    pub y_symmetric: bool,
    pub site: Option<usize>,
}
