// The parts of a text, put one behind the other.
ghost use Rattle.std.specs.Prelude.{◌≡◌, ◌++◌, ℕ, ◌+◌, ◌≤◌, length};
ghost use Rattle.meaning.specs.Strict.{mark};
ghost use Rattle.meaning.specs.Written.{shape_in, strides_in, tile_in, map_in, traversal_in};
ghost use Rattle.writer.specs.Flat.{body_in, inner_in, pointer_text, element_text, shaped, strides_text, lead_text, travel_text, map_text, sparse_text};

use super::fit::Fit;
use super::lists::Entry;
use super::names::{padding_clause, scalar_name};
use super::put::{Draft, LONGEST};
use scalars::Scalar;

impl Draft {
    // The mark, or nothing.
    fn put_mark(&mut self, attribute: bool)
        requires { length self.old + length (mark attribute) ≤ LONGEST }
        ensures { self.new ≡ self.old ++ mark attribute }
    {
        if attribute {
            self.put_bytes(b", #cuda_tile.ptr_attr<none>");
        }
    }

    // A shape, with an `x` behind each entry.
    #[tactic(auto, unfolding(crate::specs::Flat::shaped))]
    pub(crate) fn put_shape(&mut self, v: Fit)
        requires { length self.old + length (shaped (shape_in v.r.now)) ≤ LONGEST }
        ensures { self.new ≡ self.old ++ shaped (shape_in v.entry.r.now) }
    {
        for z in v.shape() {
            z.put(self);
            self.put_byte(b'x');
        }
    }

    // `, strides=[..]`, or nothing.
    fn put_strides(&mut self, v: Fit)
        requires { length self.old + length (strides_text (strides_in v.r.now)) ≤ LONGEST }
        ensures { self.new ≡ self.old ++ strides_text (strides_in v.entry.r.now) }
    {
        let l = v.strides();
        if !l.is_empty() {
            self.put_clause(b", strides=[", l, b',', b"]");
        }
    }

    // What stands in a tensor view's brackets.
    #[tactic(auto, unfolding(crate::specs::Flat::body_in))]
    pub(crate) fn put_body(&mut self, v: Fit)
        requires { length self.old + length (body_in v.r.now) ≤ LONGEST }
        ensures { self.new ≡ self.old ++ body_in v.entry.r.now }
    {
        self.put_shape(v);
        self.put_bytes(scalar_name(v.r.element));
        self.put_strides(v);
        self.put_mark(v.r.attribute);
    }

    // A pointer, with the prefix.
    pub(crate) fn put_pointer(&mut self, e: Scalar, attribute: bool)
        requires { length self.old + length (pointer_text e attribute) ≤ LONGEST }
        ensures { self.new ≡ self.old ++ pointer_text e attribute }
    {
        self.put_bytes(b"!cuda_tile.ptr<");
        self.put_bytes(scalar_name(e));
        self.put_mark(attribute);
        self.put_byte(b'>');
    }

    // A view's tile shape, with `x` between.
    pub(crate) fn put_lead(&mut self, v: Fit)
        requires { length self.old + length (lead_text (tile_in v.r.now)) ≤ LONGEST }
        ensures { self.new ≡ self.old ++ lead_text (tile_in v.entry.r.now) }
    {
        self.put_clause(b"tile=(", v.tile(), b'x', b"), ");
    }

    // A strided view's traversal strides.
    pub(crate) fn put_travel(&mut self, v: Fit)
        requires { length self.old + length (travel_text (traversal_in v.r.now)) ≤ LONGEST }
        ensures { self.new ≡ self.old ++ travel_text (traversal_in v.entry.r.now) }
    {
        self.put_clause(b"traversal_strides=[", v.traversal(), b',', b"], ");
    }

    // A gather/scatter view's sparse dimension, and the `>` that closes the view.
    #[tactic(auto, unfolding(crate::specs::Flat::sparse_text))]
    pub(crate) fn put_sparse(&mut self, sparse: i32)
        requires { length self.old + length (sparse_text sparse) ≤ LONGEST }
        ensures { self.new ≡ self.old ++ sparse_text sparse }
    {
        self.put_bytes(b"sparse_dim=");
        sparse.put(self);
        self.put_byte(b'>');
    }

    // The other views' map, and the `>` that closes the view.
    pub(crate) fn put_map(&mut self, v: Fit)
        requires { length self.old + length (map_text (map_in v.r.now)) ≤ LONGEST }
        ensures { self.new ≡ self.old ++ map_text (map_in v.entry.r.now) }
    {
        self.put_clause(b"dim_map=[", v.map(), b',', b"]>");
    }

    // A tile's element.
    pub(crate) fn put_element(&mut self, pointer: bool, e: Scalar, attribute: bool)
        requires { length self.old + length (element_text pointer e attribute) ≤ LONGEST }
        ensures { self.new ≡ self.old ++ element_text pointer e attribute }
    {
        if pointer {
            return self.put_pointer(e, attribute);
        }
        self.put_bytes(scalar_name(e));
    }

    // Padding and tensor view.
    #[tactic(auto, unfolding(crate::specs::Flat::inner_in))]
    pub(crate) fn put_inner(&mut self, v: Fit)
        requires { length self.old + length (inner_in v.r.now) ≤ LONGEST }
        ensures { self.new ≡ self.old ++ inner_in v.entry.r.now }
    {
        self.put_bytes(padding_clause(v.r.padding));
        self.put_bytes(b"tensor_view<");
        self.put_body(v);
        self.put_bytes(b">, ");
    }
}
