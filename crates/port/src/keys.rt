// Where the keywords first stand, kept while a content is scanned.
ghost use Rattle.std.specs.Prelude.{◌≡◌, ◌+◌, ◌<◌, length};
ghost use Rattle.port.specs.Seen.{Sight};
ghost use Rattle.port.specs.Keys.{Behind, Sights};

// Where each keyword first stands; a number that is no place in the text says nowhere. `plain` is that of `tensor_view<` in what follows
// `tile=(`.
#[derive(Clone, Copy)]
pub struct Places {
    pub ptr: usize,
    pub spaced: usize,
    pub bare: usize,
    pub tile: usize,
    pub map: usize,
    pub traversal: usize,
    pub sparse: usize,
    pub named: usize,
    pub prefixed: usize,
    pub padding: usize,
    pub plain: usize,
}

// Before the first byte.
pub(crate) fn none_yet(s: &[u8]) -> Places
    ensures { Sights s.now 0 result }
{
    let n = s.len();
    Places {
        ptr: n,
        spaced: n,
        bare: n,
        tile: n,
        map: n,
        traversal: n,
        sparse: n,
        named: n,
        prefixed: n,
        padding: n,
        plain: n,
    }
}

// `p` is known by its byte before the last `m`: `was` is the first of those whose byte stands before `i`.
fn sight(s: &[u8], i: usize, p: &[u8], m: usize, was: usize) -> usize
    requires { (i < length s.now) × (m < length p.now) × Sight p.now m s.now i was }
    ensures { Sight p.now m s.now (i + 1) result }
{
    if was < s.len() {
        return was;
    }
    let j = p.len() - m - 1;
    if i < j {
        return was;
    }
    let a = i - j;
    if lexis::begins(&s[a..], p) {
        return a;
    }
    was
}

// The same of `tensor_view<` in what follows `tile=(`, which stands at `tile`.
fn sight_behind(s: &[u8], i: usize, tile: usize, was: usize) -> usize
    requires { (i < length s.now) × Behind s.now i tile was }
    ensures { Behind s.now (i + 1) tile result }
{
    if s.len() <= tile {
        return was;
    }
    if i < tile {
        return was;
    }
    if i - tile < 6 {
        return was;
    }
    let b = tile + 6;
    sight(&s[b..], i - b, b"tensor_view<", 0, was)
}

// The places after one hot byte more: each keyword is compared where its own byte stands.
pub(crate) fn sighted(s: &[u8], i: usize, r: Places) -> Places
    requires { (i < length s.now) × Sights s.now i r }
    ensures { Sights s.now (i + 1) result }
{
    match s[i] {
        b'=' => Places {
            spaced: sight(s, i, b", strides=", 0, r.spaced),
            bare: sight(s, i, b",strides=", 0, r.bare),
            tile: sight(s, i, b"tile=(", 1, r.tile),
            map: sight(s, i, b"dim_map=[", 1, r.map),
            traversal: sight(s, i, b"traversal_strides=[", 1, r.traversal),
            sparse: sight(s, i, b"sparse_dim=", 0, r.sparse),
            ..r
        },
        b'<' => Places {
            ptr: sight(s, i, b"ptr<", 0, r.ptr),
            named: sight(s, i, b"tensor_view=!cuda_tile.tensor_view<", 0, r.named),
            prefixed: sight(s, i, b"!cuda_tile.tensor_view<", 0, r.prefixed),
            plain: sight_behind(s, i, r.tile, r.plain),
            ..r
        },
        b'g' => Places {
            padding: sight(s, i, b"padding_value", 6, r.padding),
            ..r
        },
        _ => r,
    }
}
