//! Where the writing sides of all links sleep, and how they are woken.
//!
//! A count goes up at each ring. A side whose count is behind has another round to make; one that is up to date sleeps at the
//! place of its link. A ring that finds sleepers begins a **walk** along the places, unless one is under way: it wakes the first
//! sleeper that is behind, which wakes the next one before it goes to work. Whoever comes to the end of the places ends the
//! walk, and begins anew where something was rung since it began. So a ring pays for one wake and never for all, few sides run
//! at once, and under load each side finds more to take at once.
//!
//! **Nobody who waits misses the last ring.** A side says that it sleeps, counts itself, and looks at the rings once more before
//! it sleeps; a ring goes up first and looks for sleepers then. A ring that finds a walk under way leaves the sleepers to it:
//! the walk is given up first, and whoever gave it up looks at the rings then.
ghost use Rattle.std.specs.Prelude.{◌≡◌, ◌<◌, IfOk, vec_len};
ghost use Rattle.qd_bell.specs.Places.{place_count};

use crossbeam_utils::CachePadded;
use crossbeam_utils::sync::EventCount;
use std::alloc::{AllocError, Global};
use std::sync::Wait;
use std::sync::atomic::AtomicU64;
use std::sync::atomic::Ordering::SeqCst;
use std::time::Duration;

const AWAKE: u64 = 0;

const ASLEEP: u64 = 1;

const WOKEN: u64 = 2;

/// While no more sides than these wait at times, one that is behind makes its next round at once.
const FEW: u64 = 4;

/// Where more do, it rests so many nanoseconds for each of them first, so that more comes together.
const REST: u64 = 8_000;

/// No rest is for more sides than these.
const MOST: u64 = 256;

/// Where the writing side of one link sleeps.
#[derive(Drop)]
struct Place {
    /// AWAKE, ASLEEP or WOKEN. A walk moves it from ASLEEP to WOKEN, and the side itself does the rest.
    state: AtomicU64,
    event: EventCount,
    /// The count of rings when the side fell asleep.
    seen: AtomicU64,
    /// Not 0 once the link is shut.
    shut: AtomicU64,
}

impl Place {
    fn new() -> Place {
        Place {
            state: AtomicU64::new(AWAKE),
            event: EventCount::new(),
            seen: AtomicU64::new(0),
            shut: AtomicU64::new(0),
        }
    }

    fn is_shut(&self) -> bool {
        self.shut.load(SeqCst) != 0
    }

    /// Wakes the side that sleeps here, if it sleeps.
    fn wake(&self) -> bool {
        let sleeps = self
            .state
            .compare_exchange(ASLEEP, WOKEN, SeqCst, SeqCst)
            .is_ok();
        if sleeps {
            self.event.notify_one();
        }
        sleeps
    }
}

/// What the bells of all links hang in. Each count has cache lines of its own, so that a ring slows no side that works.
#[derive(Drop)]
pub struct Tower {
    rings: CachePadded<AtomicU64>,
    /// How many sides sleep, or are about to.
    asleep: CachePadded<AtomicU64>,
    /// How many sides wait at times.
    waiting: CachePadded<AtomicU64>,
    /// 1 while a walk is under way.
    walking: CachePadded<AtomicU64>,
    /// The count of rings when the walk began.
    began: CachePadded<AtomicU64>,
    places: Vec<CachePadded<Place>>,
}

impl Tower {
    /// A tower with a place for each of so many links.
    pub fn new(alloc: Global, places: usize) -> Result<Tower, AllocError>
        ensures { IfOk result (λ t. place_count t ≡ places) }
    {
        Ok(Tower {
            rings: CachePadded::new(AtomicU64::new(0)),
            asleep: CachePadded::new(AtomicU64::new(0)),
            waiting: CachePadded::new(AtomicU64::new(0)),
            walking: CachePadded::new(AtomicU64::new(0)),
            began: CachePadded::new(AtomicU64::new(0)),
            places: new_places(alloc, places)?,
        })
    }

    /// For how many links it has a place.
    pub fn place_count(&self) -> usize
        ensures { result ≡ place_count self.now }
    {
        self.places.len()
    }

    /// A side begins to wait at times.
    pub(crate) fn enter(&self) {
        self.waiting.fetch_add(1, SeqCst);
    }

    /// A side waits no more.
    pub(crate) fn leave(&self) {
        self.waiting.fetch_sub(1, SeqCst);
    }

    /// Something was put.
    pub(crate) fn ring<R: Wait>(&self, rt: &R) {
        self.rings.fetch_add(1, SeqCst);
        if self.asleep.load(SeqCst) != 0 && self.takes_walk() {
            self.begin_walk(rt);
        }
    }

    /// The link is shut, and its side, which alone is meant, wakes.
    pub(crate) fn shut(&self, link: usize)
        requires { link < place_count self.now }
    {
        let place = &self.places[link];
        place.shut.store(1, SeqCst);
        self.rings.fetch_add(1, SeqCst);
        place.wake();
    }

    /// Waits for a ring after the first `seen` ones, or for the shut of this link. True where it is shut: then at once,
    /// whatever was rung.
    pub(crate) fn wait<R: Wait>(&self, rt: &R, link: usize, seen: &mut u64) -> bool
        requires { link < place_count self.now }
    {
        let place = &self.places[link];
        if place.is_shut() {
            return true;
        }
        if self.rings.load(SeqCst) != *seen {
            self.rest(rt, place);
        } else if self.sleep(rt, place, *seen) {
            self.walk_on(rt, link + 1);
        }
        *seen = self.rings.load(SeqCst);
        place.is_shut()
    }

    /// Lets more come together, where many sides wait at times. Nobody has to end a rest.
    fn rest<R: Wait>(&self, rt: &R, place: &Place) {
        let waiting = self.waiting.load(SeqCst).min(MOST);
        if waiting > FEW {
            let rest = Duration::from_nanos(REST * waiting);
            place.state.park_timeout(rt, AWAKE as u32, rest);
        }
    }

    /// Sleeps until it is woken. True where it was, and has to go on with the walk.
    fn sleep<R: Wait>(&self, rt: &R, place: &Place, seen: u64) -> bool {
        let key = place.event.prepare_wait();
        place.seen.store(seen, SeqCst);
        place.state.store(ASLEEP, SeqCst);
        self.asleep.fetch_add(1, SeqCst);
        if self.rings.load(SeqCst) == seen && !place.is_shut() {
            key.wait(rt);
        }
        self.asleep.fetch_sub(1, SeqCst);
        place.state.swap(AWAKE, SeqCst) == WOKEN
    }

    fn takes_walk(&self) -> bool {
        self.walking.load(SeqCst) == 0
            && self.walking.compare_exchange(0, 1, SeqCst, SeqCst).is_ok()
    }

    fn begin_walk<R: Wait>(&self, rt: &R) {
        self.began.store(self.rings.load(SeqCst), SeqCst);
        self.walk_on(rt, 0);
    }

    /// The walk goes on from this place: it is handed to the sleeper that it wakes, or ends.
    fn walk_on<R: Wait>(&self, rt: &R, from: usize) {
        if self.wakes_one(from) || !self.ends_walk() {
            return;
        }
        for _ in rt.forever() {
            self.began.store(self.rings.load(SeqCst), SeqCst);
            if self.wakes_one(0) || !self.ends_walk() {
                return;
            }
        }
    }

    /// Ends the walk. True where another one has to be made at once, and is this side's.
    fn ends_walk(&self) -> bool {
        let began = self.began.load(SeqCst);
        self.walking.store(0, SeqCst);
        self.rings.load(SeqCst) != began && self.asleep.load(SeqCst) != 0 && self.takes_walk()
    }

    /// Wakes the first sleeper from this place on that is behind. False where there is none.
    fn wakes_one(&self, from: usize) -> bool {
        for place in self.places.iter().skip(from) {
            let is_asleep = place.state.load(SeqCst) == ASLEEP;
            if is_asleep && place.seen.load(SeqCst) != self.rings.load(SeqCst) && place.wake() {
                return true;
            }
        }
        false
    }
}

fn new_places(alloc: Global, count: usize) -> Result<Vec<CachePadded<Place>>, AllocError>
    ensures { IfOk result (λ places. vec_len places ≡ count) }
{
    let mut places = Vec::with_capacity(alloc, count)?;
    for _ in 0..count {
        places.push(CachePadded::new(Place::new()))?;
    }
    Ok(places)
}
