// Where emission has its words in work.
ghost use Rattle.std.specs.Prelude.{◌≡◌};
ghost use Rattle.emit_state.specs.Places.{maps_of, failed_at, replaced_at, stamp_at, walk_at, values_at, pending_at, rules_of, constructors_of, index_end, matching_of, Small};

use base::limit::Limit;
use emit_chains::chain::Chains;
use emit_lines::word::Hand;
use emit_maps::maps::Maps;
use emit_match::places::Matching;
use store::nodes::Store;

// Where they stand, by few numbers: behind the pack's tables the store's index, and anywhere behind that, one behind the other, the maps
// with their trail, the failures, what was put for L, the walk's stack, a rule's values, the patterns that wait to be matched, and the
// chains of rules and constructors.
#[derive(Clone, Copy)]
pub struct Places {
    // The pack's tables and L's name.
    pub hand: Hand,
    // Where the store's index starts.
    pub index: usize,
    // Where the maps start.
    pub at: usize,
    // How many patterns there is room for.
    pub room: usize,
}

impl Places {
    // So many words a pattern: the failures, a depth with its stamp.
    pub const FAILED: usize = 2;
    // The walk's stack, a frame of two words.
    pub const WALK: usize = 2;
    // What was put for L, a pattern with its stamp.
    pub const REPLACED: usize = 2;
    // Chains are so many words for each record: the first of a key's, and the one behind a number.
    pub const CHAIN: usize = 2;

    // The maps.
    pub fn maps(self) -> Maps
        ensures { result ≡ maps_of self }
    {
        Maps {
            at: self.at,
            room: self.room,
        }
    }

    // Where the store's index ends.
    pub fn index_end(self) -> usize
        requires { Small self }
        ensures { result ≡ index_end self }
    {
        self.index + Store::INDEX * self.room + 1
    }

    // Where the failures start.
    pub fn failed(self) -> usize
        requires { Small self }
        ensures { result ≡ failed_at self }
    {
        self.at + Maps::WORDS * self.room
    }

    // Where they end, and what was put for L starts.
    pub fn replaced(self) -> usize
        requires { Small self }
        ensures { result ≡ replaced_at self }
    {
        self.failed() + Places::FAILED * self.room
    }

    // Where that ends, and its stamp stands.
    pub fn stamp(self) -> usize
        requires { Small self }
        ensures { result ≡ stamp_at self }
    {
        self.replaced() + Places::REPLACED * self.room
    }

    // Where the walk's stack starts.
    pub fn walk(self) -> usize
        requires { Small self }
        ensures { result ≡ walk_at self }
    {
        self.stamp() + 1
    }

    // Where a rule's values start.
    pub fn values(self) -> usize
        requires { Small self }
        ensures { result ≡ values_at self }
    {
        self.walk() + Places::WALK * self.room
    }

    // Where the patterns that wait to be matched start.
    pub fn pending(self) -> usize
        requires { Small self }
        ensures { result ≡ pending_at self }
    {
        self.values() + Limit::VARIABLES
    }

    // Where a rule is matched against a pattern of the store.
    pub fn matching(self, st: Store) -> Matching
        requires { Small self }
        ensures { result ≡ matching_of self st }
    {
        Matching {
            catalog: self.hand.catalog,
            store: st,
            index: self.index,
            end: self.index_end(),
            values: self.values(),
            stack: self.pending(),
        }
    }

    // The chains of the rules that conclude a predicate.
    pub fn rules(self) -> Chains
        requires { Small self }
        ensures { result ≡ rules_of self }
    {
        let first = self.pending() + Limit::WORDS;
        let many = self.hand.catalog.cap;
        Chains {
            first,
            keys: many,
            next: first + many,
            items: many,
        }
    }

    // The chains of a sort's constructors.
    pub fn constructors(self) -> Chains
        requires { Small self }
        ensures { result ≡ constructors_of self }
    {
        let many = self.hand.catalog.cap;
        let first = self.pending() + Limit::WORDS + Places::CHAIN * many;
        Chains {
            first,
            keys: many,
            next: first + many,
            items: many,
        }
    }
}
