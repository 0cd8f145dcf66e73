//! The links of a list in a vector. Place 0 is the root, before the first and after the last; slot `s` stands at place `s + 1`.

ghost use Rattle.std.specs.Prelude.{◌+◌, ◌∷◌, [], ◌≡◌, ◌<◌, ◌≤◌, ◌-◌, ◌^◌, ◌++◌, vec_capacity, length, slice_index, slice_set, vec_len};
ghost use Rattle.qd_pend.specs.Linked.{nexts, prevs, numbers};

/// The places before and after a place. Both are its own number where its slot is not in the list.
#[derive(Clone, Copy)]
pub struct Link {
    pub prev: u32,
    pub next: u32,
}

/// The place after a place.
pub fn next_of(links: &[Link], place: u32) -> u32
    requires { place < length links.now }
    ensures next { result ≡ slice_index (nexts links.now) place }
{
    links[place as usize].next
}

/// The place before a place.
pub fn prev_of(links: &[Link], place: u32) -> u32
    requires { place < length links.now }
    ensures prev { result ≡ slice_index (prevs links.now) place }
{
    links[place as usize].prev
}

/// Makes one place the next of another.
pub fn join(links: &mut Vec<Link>, before: u32, after: u32)
    requires before { before < vec_len links.old }
    requires after { after < vec_len links.old }
    ensures nexts { nexts links.new.items ≡ slice_set (nexts links.old.items) before after }
    ensures prevs { prevs links.new.items ≡ slice_set (prevs links.old.items) after before }
    ensures len { vec_len links.new ≡ vec_len links.old }
{
    let first = &mut links[before as usize];
    first.next = after;
    let second = &mut links[after as usize];
    second.prev = before;
}

/// Adds places whose slots are not in the list, up to a number of places for which there is room.
pub fn add_free(links: &mut Vec<Link>, places: usize)
    requires from { vec_len links.old ≤ places }
    requires room { places ≤ vec_capacity links.old }
    requires few { places ≤ 2 ^ 32 }
    ensures nexts { nexts links.new.items ≡ nexts links.old.items ++ numbers (vec_len links.old) (places - vec_len links.old) }
    ensures prevs { prevs links.new.items ≡ prevs links.old.items ++ numbers (vec_len links.old) (places - vec_len links.old) }
    ensures len { vec_len links.new ≡ places }
{
    for place in links.len()..places {
        push_own(links, place as u32);
    }
}

/// Adds a place that is its own next. There is room for it.
fn push_own(links: &mut Vec<Link>, place: u32)
    requires { vec_len links.old < vec_capacity links.old }
    ensures items { links.new.items ≡ links.old.items ++ record { prev = place; next = place } ∷ [] }
    ensures len { vec_len links.new ≡ vec_len links.old + 1 }
    ensures capacity { vec_capacity links.old ≤ vec_capacity links.new }
{
    let _ = links.push(Link {
        prev: place,
        next: place,
    });
}
