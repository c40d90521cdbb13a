// Where a name of a header stands first in it, where each name is compared with one earlier name at most, whatever the names are. A name leaves its line's
// number as a stamp, at a place that its bytes give. From the stamp's door the names of that stamp go apart by forks, each of which asks for four bits. Names
// made to pass many forks mostly go on as the one before them did: so each fork has a guess of what the next door holds, that of the last name which passed
// it, and the processor need not wait for the name's bits before it looks there.
#![tactic(auto)]

ghost use Rattle.std.specs.Prelude.{◌≡◌, true, false, ◌+◌, ◌*◌, ◌/◌, ◌%◌, ◌^◌, ◌≤◌, ◌<◌, length, get_or, MatchOption};
ghost use Rattle.text_bytes.specs.Places.{part};
ghost use Rattle.text.specs.Lines.{LIMIT};
ghost use Rattle.line_head_stamps.specs.Stamps.{ROOM as room, SAME as same, IsDoor, BRANCHES as branches, hash_of, byte_code, side_of, covered, entered, forked};
ghost use Rattle.line_head_stamps.specs.Ways.{PartsAt, Guessed, Astray, Doors, Goes, FindsDoor, Noted, Adds};

// The list that is lent has so many places: the stamps, and from the places below on their doors, the doors of each fork, what each fork asks, where each
// name begins and ends, and the guess of each fork.
pub const ROOM: usize = 13312;

const DOORS: usize = 4096;

const BRANCHES: usize = 8192;

const ASKS: usize = 12288;

const STARTS: usize = 12544;

const ENDS: usize = 12800;

const GUESSES: usize = 13056;

// A door holds the number of a name, or from here on that of the fork that came with a name.
const FORK: u32 = 256;

// All that a door of this header holds is below.
const HELD: u32 = 512;

// A hash keeps 16 bits of each turn, and its stamp stands at one of so many places.
const BITS: usize = 65536;

const STAMPS: usize = 4096;

// A fork has so many doors, one for each side that four bits can give.
const SIDES: usize = 16;

// So many forks are passed without a guess.
const NEAR: usize = 4;

// Name number 0 stands in this cell.
const NAMES: u32 = 2;

// What no fork asks.
const SAME: u32 = 4294967295;

// The place of a name's stamp.
fn hash(name: &[u8]) -> usize
    ensures { result ≡ hash_of name.now }
{
    let mut h = 0;
    for x in name {
        h = (h * 33 + usize::from(*x)) % BITS;
    }
    h % STAMPS
}

// The code of the byte at a place, the byte and one more; 0 past the end.
fn code_at(name: &[u8], place: usize) -> u32
    ensures { (result ≡ byte_code name.now place) × (result ≤ 256) }
{
    match name.get(place) {
        Some(x) => u32::from(*x) + 1,
        None => 0,
    }
}

// The four bits of the name that a fork asks for: its side there.
fn side(name: &[u8], ask: u32) -> usize
    ensures { result ≡ side_of ask name.now }
{
    let held = code_at(name, (ask / 16) as usize);
    ((held >> (ask % 16)) % 16) as usize
}

// Whether a stamp is of this line, and what its door holds is a number of one of the first `count` names. Else an earlier header left them behind.
fn is_live(stamp: u32, line_no: u32, held: u32, count: u32) -> bool
    ensures stamp_value { result ≡ true → (stamp ≡ line_no) × IsDoor count held }
    ensures fact { result ≡ false → stamp ≡ line_no → IsDoor count held → ⊥ }
{
    stamp == line_no && held < HELD && held % FORK < count
}

// A door on the way of the name, from one on: the way ends there, or four forks are passed. Most ways are no longer, and of these no guess is made: a wrong one
// costs more than a right one saves.
fn nearby(stamps: &[u32], count: u32, from: usize, name: &[u8]) -> usize
    requires stamps_len { length stamps.now ≡ room }
    requires count_bound { (count ≤ 254) × (4096 ≤ from) × (from < 12288) }
    requires doors { Doors stamps.now count }
    requires door { IsDoor count (get_or stamps.now from 0) }
    ensures { Goes stamps.now count name.now from result }
{
    let mut door = from;
    for _ in 0..NEAR {
        let held = stamps[door];
        if held < FORK {
            return door;
        }
        let fork = (held - FORK) as usize;
        door = BRANCHES + SIDES * fork + side(name, stamps[ASKS + fork]);
    }
    door
}

// A door further on the way of the name, from one that leads to a fork of the first `count` names: it ends the way, or holds something else than was guessed,
// which is guessed from then on. While the guesses are right, what comes next is read from them, and the name's bits are only compared with it.
// Kept: the loop follows what doors hold and counts nothing, so that a `for` has nothing to go over.
fn further(stamps: &mut [u32], count: u32, from: usize, name: &[u8]) -> usize
    requires stamps_len { length stamps.old ≡ room }
    requires count_bound { (count ≤ 254) × (from < 12288) }
    requires doors { Doors stamps.old count }
    requires bound { (256 ≤ get_or stamps.old from 0) × IsDoor count (get_or stamps.old from 0) }
    ensures guessed { Guessed stamps.old stamps.new }
    ensures goes { Goes stamps.new count name.now from result }
{
    let mut held = stamps[from];
    loop {
        let fork = (held - FORK) as usize;
        let guess = stamps[GUESSES + fork];
        let door = BRANCHES + SIDES * fork + side(name, stamps[ASKS + fork]);
        let there = stamps[door];
        if there != guess {
            stamps[GUESSES + fork] = there;
            return door;
        }
        if guess < FORK {
            return door;
        }
        held = guess;
    }
}

// The door where the way of the name ends, which holds the number of an earlier name, if there is one with its stamp, which stands at h.
// Kept: the loop follows what doors hold and counts nothing, so that a `for` has nothing to go over.
fn last_door(stamps: &mut [u32], line_no: u32, count: u32, h: usize, name: &[u8]) -> Option<usize>
    requires stamps_len { length stamps.old ≡ room }
    requires count_bound { (count ≤ 254) × (h < 4096) }
    requires doors { Doors stamps.old count }
    ensures guessed { Guessed stamps.old stamps.new }
    ensures finds_door { MatchOption result (FindsDoor stamps.new line_no count h name.now 0) (λ door. (0 < door) × FindsDoor stamps.new line_no count h name.now door) }
{
    let root = DOORS + h;
    if !is_live(stamps[h], line_no, stamps[root], count) {
        return None;
    }
    let mut door = nearby(stamps, count, root, name);
    while FORK <= stamps[door] {
        door = further(stamps, count, door, name);
    }
    Some(door)
}

// The first place where the two differ, or the end of the shorter.
fn first_difference(a: &[u8], b: &[u8]) -> usize
    ensures { PartsAt a.now b.now result }
{
    for (i, x) in a.iter().enumerate() {
        if b.get(i) != Some(x) {
            return i;
        }
    }
    a.len()
}

// Where the lowest four bits begin in which two codes differ; the highest where they are the same.
fn differing_bits(a: u32, b: u32) -> u32
    requires { (a ≤ 256) × (b ≤ 256) }
    ensures { (result ≤ 8) × (a / 2 ^ result % 16 ≡ b / 2 ^ result % 16 → a ≡ b) }
{
    if a % 16 != b % 16 {
        return 0;
    }
    if a / 16 % 16 != b / 16 % 16 {
        return 4;
    }
    8
}

// What a fork has to ask to tell the two apart, by the first place where they differ; SAME where they do not.
fn question(a: &[u8], b: &[u8]) -> u32
    requires { length a.now ≤ LIMIT }
    ensures a_value { result ≡ same → a.now ≡ b.now }
    ensures fact { (result ≡ same → ⊥) → side_of result a.now ≡ side_of result b.now → ⊥ }
{
    let place = first_difference(a, b);
    if (place == a.len()) & (place == b.len()) {
        return SAME;
    }
    let shift = differing_bits(code_at(a, place), code_at(b, place));
    16 * (place as u32) + shift
}

// All doors of fork number `count` hold the number of its name.
fn fill_doors(stamps: &mut [u32], count: usize)
    requires stamps_len { length stamps.old ≡ room }
    requires count_bound { count ≤ 254 }
    ensures { stamps.new ≡ covered stamps.old (branches + 16 * count) 16 count }
{
    let from = BRANCHES + SIDES * count;
    stamps[from..from + SIDES].fill(count as u32);
}

// Name number `count` begins at `at` and ends before `end`. All doors of its fork hold it.
fn enter(stamps: &mut [u32], count: usize, at: usize, end: usize)
    requires stamps_len { length stamps.old ≡ room }
    requires count_bound { (count ≤ 254) × (at ≤ LIMIT) × (end ≤ LIMIT) }
    ensures { stamps.new ≡ entered stamps.old count at end }
{
    stamps[STARTS + count] = at as u32;
    stamps[ENDS + count] = end as u32;
    fill_doors(stamps, count);
}

// The door leads to the fork of name number `count`. On side `their` is what the door held; all others hold the name already.
fn put_fork(stamps: &mut [u32], door: usize, count: usize, ask: u32, their: usize)
    requires stamps_len { length stamps.old ≡ room }
    requires door_lt_room { (door < room) × (count ≤ 254) × (their < 16) }
    ensures { stamps.new ≡ forked stamps.old door count ask their }
{
    let held = stamps[door];
    stamps[ASKS + count] = ask;
    stamps[BRANCHES + SIDES * count + their] = held;
    stamps[door] = FORK + (count as u32);
}

// Whether the name behind a door of a fork is of another side than the door. No way of an earlier name ends there then.
fn is_astray(stamps: &[u32], door: usize, other: &[u8]) -> bool
    requires stamps_len { length stamps.now ≡ room }
    requires door_bound { door < 12288 }
    ensures { result ≡ true → Astray stamps.now door other.now }
{
    if door < BRANCHES {
        return false;
    }
    let at = door - BRANCHES;
    side(other, stamps[ASKS + at / SIDES]) != at % SIDES
}

// The cell of the first name that is equal to the one from `at` up to `end`, of the first `count` of the line, which are noted; 0 for none. It is noted too.
// Kept: the definitions `Adds` and `first_named` have 0 for none.
pub fn came_before(
    stamps: &mut [u32],
    line_no: u32,
    line: &[u8],
    count: usize,
    at: usize,
    end: usize,
) -> u32
    requires noted { Noted stamps.old line_no line.now count }
    requires line_len_bound { length line.now ≤ LIMIT }
    requires count_bound { (count ≤ 254) × (at ≤ end) × (end ≤ length line.now) }
    ensures { Adds stamps.old stamps.new line_no line.now count (part at end line.now) result }
{
    let name = &line[at..end];
    let h = hash(name);
    let Some(door) = last_door(stamps, line_no, count as u32, h, name) else {
        enter(stamps, count, at, end);
        stamps[h] = line_no;
        stamps[DOORS + h] = count as u32;
        return 0;
    };
    let held = stamps[door];
    let k = held as usize;
    let start = stamps[STARTS + k] as usize;
    let stop = stamps[ENDS + k] as usize;
    let other = &line[start..stop];
    let ask = question(name, other);
    let astray = is_astray(stamps, door, other);
    enter(stamps, count, at, end);
    if ask == SAME {
        return held + NAMES;
    }
    if astray {
        stamps[door] = count as u32;
        return 0;
    }
    let their = side(other, ask);
    put_fork(stamps, door, count, ask, their);
    0
}
