//! The steps that one operation keeps to.
ghost use Rattle.std.specs.Prelude.{◌≤◌};

/// An operation keeps to these steps: it starts at `begin` or later, and its unit is busy until `end` at the latest.
#[derive(Clone, Copy)]
pub struct Stay {
    pub begin: u8,
    pub end: u8,
    ghost begin_range: { begin ≤ 64 },
    ghost end_range: { end ≤ 64 },
}

// What stands at a vector's unused places. By hand: beside ghost fields `Default` cannot be derived.
impl Default for Stay {
    fn default() -> Self {
        Stay { begin: 0, end: 0 }
    }
}

mod framed;
