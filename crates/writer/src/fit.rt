// A record's lists, as slices.
ghost use Rattle.std.specs.Prelude.{◌≡◌, ◌≤◌};
ghost use Rattle.meaning.specs.Written.{shape_in, strides_in, tile_in, map_in, traversal_in};
ghost use Rattle.writer.specs.Flat.{Small};

use meaning::Record;

// A record with no length over the capacity.
#[derive(Clone, Copy)]
pub(crate) struct Fit<'a> {
    pub(crate) r: &'a Record,
    ghost small: { Small 8 r.now },
}

impl<'a> Fit<'a> {
    pub(crate) fn shape(&self) -> &'a [i64]
        ensures { result.now ≡ shape_in self.now.r.now }
    {
        &self.r.shape[..self.r.shape_len]
    }

    pub(crate) fn strides(&self) -> &'a [i64]
        ensures { result.now ≡ strides_in self.now.r.now }
    {
        &self.r.strides[..self.r.strides_len]
    }

    pub(crate) fn tile(&self) -> &'a [i32]
        ensures { result.now ≡ tile_in self.now.r.now }
    {
        &self.r.tile[..self.r.tile_len]
    }

    pub(crate) fn map(&self) -> &'a [i32]
        ensures { result.now ≡ map_in self.now.r.now }
    {
        &self.r.map[..self.r.map_len]
    }

    pub(crate) fn traversal(&self) -> &'a [i32]
        ensures { result.now ≡ traversal_in self.now.r.now }
    {
        &self.r.traversal[..self.r.traversal_len]
    }
}
