ghost use Rattle.std.specs.Prelude.{◌≡◌, ◌-◌, [], ◌∷◌, length, map, find, bytes_eq};
ghost use Rattle.std.specs.List.{range_with_len};
ghost use Rattle.gx_base.specs.declared.kinds.Kind.TheVariants.{Set, Cells, Flow, Points, Domains};
ghost use Rattle.gx_base.specs.Kinds.{kind_number};
ghost use Rattle.gx_base.specs.Methods as methods;

/// The kinds of objects.
#[derive(Clone, Copy, Debug, PartialEq, Eq, Drop)]
pub enum Kind {
    Set,
    Cells,
    Flow,
    Points,
    Domains,
}

/// Which of the shipped tables of a kind.
#[derive(Clone, Copy, Debug, PartialEq, Eq, Drop)]
pub enum Choice {
    /// The weakest conditions.
    Precise,
    /// Those that locks can keep.
    Simple,
    /// Readers and writers.
    Rw,
    /// One lock for all.
    Global,
}

/// All kinds, by rising number.
const KINDS: [Kind; 5] = [
    Kind::Set,
    Kind::Cells,
    Kind::Flow,
    Kind::Points,
    Kind::Domains,
];

/// The first method of sets. A kind's other methods follow its first one after another.
pub const SET_METHODS: u32 = 0;

/// The first method of cells.
pub const CELLS_METHODS: u32 = 8;

/// The first method of flow shards.
pub const FLOW_METHODS: u32 = 16;

/// The first method of points.
pub const POINT_METHODS: u32 = 32;

/// The first method of domain books.
pub const DOMAIN_METHODS: u32 = 48;

/// No kind has more methods.
pub const MOST_METHODS: u32 = 8;

/// The number of the first method of a kind.
fn first_method(kind: Kind) -> u32
    ensures { result ≡ methods.first_method (kind_number kind) }
{
    match kind {
        Kind::Set => SET_METHODS,
        Kind::Cells => CELLS_METHODS,
        Kind::Flow => FLOW_METHODS,
        Kind::Points => POINT_METHODS,
        Kind::Domains => DOMAIN_METHODS,
    }
}

/// The words of a kind's methods, by rising number.
fn words_of(kind: Kind) -> &'static [&'static str]
    ensures { map (λ word. word.now) result.now ≡ methods.words_of (kind_number kind) }
{
    match kind {
        Kind::Set => &["add", "remove", "contains"],
        Kind::Cells => &["read", "add", "set"],
        Kind::Flow => &["height", "relabel", "excess", "gain", "flow", "send"],
        Kind::Points => &["add", "remove", "at", "nearest"],
        Kind::Domains => &["weigh", "total", "move", "credit", "sum"],
    }
}

fn method_count(kind: Kind) -> u32
    ensures { result ≡ length (methods.words_of (kind_number kind)) }
{
    words_of(kind).len() as u32
}

/// The first method among those from one number up to another that has this word.
fn first_with_word(from: u32, end: u32, word: &str) -> Option<u32>
    ensures { result ≡ find (λ method. bytes_eq (methods.word_of method) word.now) (range_with_len from (end - from)) }
{
    (from..end).find(|method| word_of(*method) == word)
}

/// The number of the method with this word, and none where the kind has no such method.
pub fn method_of(kind: Kind, word: &str) -> Option<u32>
    ensures { result ≡ methods.method_of (kind_number kind) word.now }
{
    let first = first_method(kind);
    first_with_word(first, first + method_count(kind), word)
}

/// The number of the method at a place, from 0, by rising number, and none past the last.
pub fn method_at(kind: Kind, i: u32) -> Option<u32>
    ensures { result ≡ methods.method_at (kind_number kind) i }
{
    if i < method_count(kind) {
        Some(first_method(kind) + i)
    } else {
        None
    }
}

/// Whether a kind has a method of this number.
fn has_method(kind: Kind, method: u32) -> bool
    ensures { result ≡ methods.is_method (kind_number kind) method }
{
    let first = first_method(kind);
    first <= method && method < first + method_count(kind)
}

/// The kind that has a method of this number.
fn kind_with(method: u32) -> Option<Kind>
    ensures { result ≡ find (λ kind. methods.is_method (kind_number kind) method) (Set ∷ Cells ∷ Flow ∷ Points ∷ Domains ∷ []) }
{
    KINDS.iter().copied().find(|kind| has_method(*kind, method))
}

/// The word of a method, and `?` for a number that no kind has.
pub fn word_of(method: u32) -> &'static str
    ensures { result.now ≡ methods.word_of method }
{
    match kind_with(method) {
        Some(kind) => words_of(kind)[(method - first_method(kind)) as usize],
        None => "?",
    }
}
