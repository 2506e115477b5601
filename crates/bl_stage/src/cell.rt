//! One frame of the pool, as a stage keeps it.
ghost use Rattle.std.specs.Prelude.{◌≡◌};
ghost use Rattle.bl_stage.specs.internal.Cells.{is_spare_cell};

/// One frame of the pool: which place of the list of all files' frames it has, and whether it is
/// to be left.
#[derive(Clone, Copy)]
pub struct Cell {
    pub holder: Option<u32>,
    pub shut: bool,
}

impl Cell {
    /// Whether a frame may be moved here.
    pub fn is_spare(self) -> bool
        ensures { result ≡ is_spare_cell self }
    {
        !self.shut && self.holder.is_none()
    }
}
