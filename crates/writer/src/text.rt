// The text of each kind of record, put part by part.
ghost use Rattle.std.specs.Prelude.{◌≡◌, ◌++◌, ℕ, ◌+◌, ◌≤◌, length};
ghost use Rattle.writer.specs.Flat.{tile_text, tensor_text, rest_as, text};

use super::fit::Fit;
use super::names::{head, scalar_name};
use super::put::{Draft, LONGEST};
use meaning::Kind;

impl Draft {
    fn put_tile(&mut self, v: Fit)
        requires { length self.old + length (tile_text v.r.now) ≤ LONGEST }
        ensures { self.new ≡ self.old ++ tile_text v.entry.r.now }
    {
        self.put_shape(v);
        self.put_element(v.r.pointer, v.r.element, v.r.attribute);
        self.put_byte(b'>');
    }

    fn put_tensor(&mut self, v: Fit)
        requires { length self.old + length (tensor_text v.r.now) ≤ LONGEST }
        ensures { self.new ≡ self.old ++ tensor_text v.entry.r.now }
    {
        self.put_body(v);
        self.put_byte(b'>');
    }

    // What stands behind the head, by the kind.
    fn put_rest(&mut self, v: Fit)
        requires { length self.old + length (rest_as v.r.now.kind v.r.now) ≤ LONGEST }
        ensures { self.new ≡ self.old ++ rest_as v.entry.r.now.kind v.entry.r.now }
    {
        let r = v.r;
        match r.kind {
            Kind::Scalar => self.put_bytes(scalar_name(r.element)),
            Kind::Pointer => self.put_pointer(r.element, r.attribute),
            Kind::Tile => self.put_tile(v),
            Kind::TensorView => self.put_tensor(v),
            Kind::Partition => {
                self.put_lead(v);
                self.put_inner(v);
                self.put_map(v);
            }
            Kind::GatherScatter => {
                self.put_lead(v);
                self.put_inner(v);
                self.put_sparse(r.sparse);
            }
            Kind::Strided => {
                self.put_lead(v);
                self.put_travel(v);
                self.put_inner(v);
                self.put_map(v);
            }
            Kind::Token => (),
        }
    }

    // The text of a record.
    pub(crate) fn put_text(&mut self, v: Fit)
        requires { length self.old + length (text v.r.now) ≤ LONGEST }
        ensures { self.new ≡ self.old ++ text v.entry.r.now }
    {
        self.put_bytes(head(v.r.kind));
        self.put_rest(v);
    }
}
