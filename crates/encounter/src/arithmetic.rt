//! Rounded arithmetic on scaled numbers: each operation answers D or U of the exact value, and whether it lost anything. The direction is a bool, as it is in every
//! definition (`rounded up 32`).
pub mod rounding;
pub mod scaled;
pub mod traced;
pub mod wide;
