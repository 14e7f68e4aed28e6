// Nodes in lent memory: found, added, lowered, joined, closed, the first open one taken, the closed ones listed. What the words of a row
// hold stands in specs/Memory.
#![tactic(auto)]

ghost use Rattle.std.specs.Prelude.{◌≡◌, ◌+◌, ◌*◌, ◌≤◌, ◌<◌, Bool, ℕ, [], length, set};
ghost use Rattle.trellis.specs.Trellis.{node};
ghost use Rattle.trellis.specs.Search.{Row, row_at, node_at, started, find_row, first_by, first_open, next_closed, added, lowered, joined, closed};
ghost use Rattle.store.specs.Limits.{words_per_node};
ghost use Rattle.store.specs.Memory.{row_of, Small, states, levels, counts, order_word, rest_word, order_at, rest_at, written, rows_of, showing, found_at};
ghost use Rattle.store.specs.Scan.{Keyed, open_key, next_key};

use std::marker::Model;

// How many words of the memory a node takes: two are used, and one is free.
pub const WORDS_PER_NODE: usize = 3;

// How many states a level of the words has, how many levels, and how many nodes in all.
const STATES: u64 = 65536;

const LEVELS: u64 = 1024;

const NODES: u64 = 67108864;

// How many counts, inputs and parents the other word tells apart.
const COUNTS: u64 = 256;

const INPUTS: u64 = 256;

const PARENTS: u64 = 8192;

// And where each of them begins: above the bit of a closed row, above the counts, above the inputs.
const COUNT_PLACE: u64 = 2;

const INPUT_PLACE: u64 = 512;

const PARENT_PLACE: u64 = 131072;

// A row of the memory: a node with its cost so far, how many paths of that cost were found up to the cap, the index of the row before
// it and the input between them, and whether it was expanded. (That it is small stands in clauses and is no ghost field: with it each write
// of one field, as in `join` and `close`, would have to show all six bounds again.)
#[derive(Clone, Copy, Debug, PartialEq, Eq)]
pub struct Held {
    pub cost: u64,
    pub level: u64,
    pub state: u64,
    pub count: u64,
    pub parent: u64,
    pub input: u64,
    pub closed: bool,
}

// The nodes that a search has met, in lent memory. (Words with a count, and indices for links: the memory is lent and fixed, no heap.)
#[derive(Drop)]
pub struct Nodes<'a> {
    words: &'a mut [u64],
    count: usize,
}

impl<'a> Model for Nodes<'a> {
    ghost use Rattle.std.specs.Prelude.{◌*◌, ◌≤◌, length};
    ghost use Rattle.store.specs.Limits.{words_per_node};
    ghost use Rattle.store.specs.Memory.{Shown, rows_of};

    ghost Value = { Shown };

    ghost view = { λ s. record { words = length s.words.now; rows = rows_of s.words.now s.count } };

    ghost invariant = { λ s. words_per_node * s.count ≤ length s.words.now };
}

#[tactic(auto, using(crate::proofs::Rows::length_rows_of))]
impl<'a> Nodes<'a> {
    // No rows yet, whatever stood in the memory.
    pub fn new(words: &'a mut [u64]) -> Nodes<'a>
        ensures { result ≡ record { words = length words.old; rows = [] } }
    {
        Nodes { words, count: 0 }
    }

    // How many rows there are.
    pub fn len(&self) -> usize
        ensures count { result ≡ length self.now.rows }
        ensures room { words_per_node * length self.now.rows ≤ self.now.words }
    {
        let Nodes { count, .. } = self;
        *count
    }

    // How many words the memory has.
    pub fn words(&self) -> usize
        ensures { result ≡ self.now.words }
    {
        self.words.len()
    }

    // The origin alone, whatever stood there.
    pub fn start(&mut self)
        requires { words_per_node ≤ self.old.words }
        ensures { self.new ≡ showing self.old started }
    {
        let origin = Held {
            cost: 0,
            level: 0,
            state: 0,
            count: 1,
            parent: 0,
            input: 0,
            closed: false,
        };
        put(self.words, 0, origin);
        self.count = 1;
    }

    // The row at an index. (No `From`: the clauses speak of the row at an index.)
    pub fn row(&self, i: usize) -> Held
        requires { i < length self.now.rows }
        ensures row { row_of result ≡ row_at self.now.rows i }
        ensures small { Small result }
    {
        let (order, rest) = get(self.words, i);
        Held {
            cost: order / NODES,
            level: order / STATES % LEVELS,
            state: order % STATES,
            count: rest / COUNT_PLACE % COUNTS,
            parent: rest / PARENT_PLACE % PARENTS,
            input: rest / INPUT_PLACE % INPUTS,
            closed: rest % COUNT_PLACE == 1,
        }
    }

    // The index of a node's row.
    #[tactic(auto, using(crate::proofs::Rows::length_rows_of, crate::proofs::Scans::finding_stop, crate::proofs::Scans::finding_next))]
    pub fn find(&self, level: u64, state: u64) -> Option<usize>
        requires level { level < levels }
        requires state { state < states }
        ensures { result ≡ found_at self.now.rows (find_row (node level state) self.now.rows) }
    {
        let wanted = level * STATES + state;
        for i in 0..self.count {
            // The order word alone: `get`, which reads both, makes this scan slower.
            let order = self.words[WORDS_PER_NODE * i];
            if order % NODES == wanted {
                return Some(i);
            }
        }
        None
    }

    // The index of the open row that is first in node order; of rows that stand equal, the first.
    pub fn first_open(&self) -> Option<usize>
        ensures { result ≡ found_at self.now.rows (first_open self.now.rows) }
    {
        let key = |order: u64, rest: u64| -> Option<u64>
            ensures { result ≡ open_key order rest }
        { (rest % COUNT_PLACE != 1).then_some(order) };
        least(self.words, self.count, key)
    }

    // The index of the closed row whose node comes next after that of row k, by level, then state.
    pub fn next_closed(&self, k: usize) -> Option<usize>
        requires { k < length self.now.rows }
        ensures { result ≡ found_at self.now.rows (next_closed (node_at self.now.rows k) self.now.rows) }
    {
        let (order, _) = get(self.words, k);
        let last = order % NODES;
        let key = |order: u64, rest: u64| -> Option<u64>
            ensures { result ≡ next_key last order rest }
        {
            let number = order % NODES;
            // Tried as `then_some`: a decode with its sheet took a third longer.
            if rest % COUNT_PLACE == 1 && last < number {
                Some(number)
            } else {
                None
            }
        };
        least(self.words, self.count, key)
    }

    // A row more at the end.
    pub fn add(&mut self, r: Held)
        requires room { words_per_node * (length self.old.rows + 1) ≤ self.old.words }
        requires small { Small r }
        ensures { self.new ≡ showing self.old (added self.old.rows (row_of r)) }
    {
        put(self.words, self.count, r);
        self.count += 1;
    }

    // A cheaper way to the node of row i, which the row keeps.
    pub fn lower(&mut self, i: usize, r: Held)
        requires index { i < length self.old.rows }
        requires small { Small r }
        requires same_node { (row_of r).entry.node ≡ node_at self.old.rows i }
        ensures { self.new ≡ showing self.old (lowered self.old.rows i (row_of r)) }
    {
        self.set(i, r);
    }

    // So many more paths of the same cost to the node of row i, stopped at the cap.
    pub fn join(&mut self, i: usize, cap: u64, more: u64)
        requires index { i < length self.old.rows }
        requires cap { cap < counts }
        requires more { more < counts }
        ensures { self.new ≡ showing self.old (joined cap self.old.rows i more) }
    {
        let mut r = self.row(i);
        r.count = (r.count + more).min(cap);
        self.set(i, r);
    }

    // Row i, the first open one, is expanded.
    pub fn close(&mut self, i: usize)
        requires index { i < length self.old.rows }
        requires first { i ≡ first_open self.old.rows }
        ensures { self.new ≡ showing self.old (closed self.old.rows i) }
    {
        let mut r = self.row(i);
        r.closed = true;
        self.set(i, r);
    }

    // Row i written anew.
    fn set(&mut self, i: usize, r: Held)
        requires index { i < length self.old.rows }
        requires small { Small r }
        ensures { self.new ≡ showing self.old (set self.old.rows i (row_of r)) }
    {
        put(self.words, i, r);
    }
}

// The index of the row whose words have the least key, of equal ones the first. Rows without a key are passed over. (This and the next two
// take the slice and no `Nodes`: a clause of a method cannot name its fields.)
fn least<F: Fn(u64, u64) -> Option<u64>>(work: &[u64], n: usize, key: F) -> Option<usize>
    requires room { words_per_node * n ≤ length work.now }
    requires callable { F.IsAlwaysCallable key }
    ensures { (eligible : Row → Bool) (ahead : Row → Row → Bool) → Keyed (F.post key) eligible ahead
        → result ≡ found_at (rows_of work.now n) (first_by eligible ahead (rows_of work.now n)) }
{
    // None is n until the end. Tried as an `Option`: a whole decode took a third longer.
    let mut best = n;
    let mut lowest = u64::MAX;
    for i in (0..n).rev() {
        let (order, rest) = get(work, i);
        if let Some(k) = key(order, rest) {
            if k <= lowest {
                best = i;
                lowest = k;
            }
        }
    }
    (best < n).then_some(best)
}

// Reads the two words of row i.
fn get(work: &[u64], i: usize) -> (u64, u64)
    requires { words_per_node * (i + 1) ≤ length work.now }
    ensures { result ≡ (order_at work.now i, rest_at work.now i) }
{
    (work[WORDS_PER_NODE * i], work[WORDS_PER_NODE * i + 1])
}

// Writes the two words of row i.
fn put(work: &mut [u64], i: usize, r: Held)
    requires room { words_per_node * (i + 1) ≤ length work.old }
    requires small { Small r }
    ensures { work.new ≡ written work.old i r }
{
    let order = order_word(r);
    let rest = rest_word(r);
    work[WORDS_PER_NODE * i] = order;
    work[WORDS_PER_NODE * i + 1] = rest;
}

// Two order words compare as cost, then level, then state do. No `From`, here and for the other word: it could not ask that the row is small.
fn order_word(r: Held) -> u64
    requires { Small r }
    ensures { result ≡ order_word r }
{
    r.cost * NODES + r.level * STATES + r.state
}

// The other word: the last bit tells whether the row is closed.
fn rest_word(r: Held) -> u64
    requires { Small r }
    ensures { result ≡ rest_word r }
{
    let even = r.parent * PARENT_PLACE + r.input * INPUT_PLACE + r.count * COUNT_PLACE;
    if r.closed { even + 1 } else { even }
}
