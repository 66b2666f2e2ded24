// SECOND m received: heard; at the (n - f)th the site steps, and THIRD goes to m's owner. A late one is consumed without effect.
// Rests on flat.
ghost use Rattle.std.specs.Prelude.{◌<◌, ◌≡◌};
ghost use Rattle.sets.specs.Sets.{capacity, with};
ghost use Rattle.site.specs.Sites.{sites};
ghost use Rattle.arrays.specs.Layout.{seen_of};
ghost use Rattle.arrays.specs.Arrays.{slot_set, marked};
ghost use Rattle.flight.specs.Flights.{taking_from, sending_to};
ghost use Rattle.steps.specs.Refusals.{answer_number};
ghost use Rattle.steps.specs.Receipts.{InRange};
ghost use Rattle.flat.specs.Flat.{flat, passed_second, hearing, heard_second, stepping, carrying_to, joining, holding, stepped_second, flat_second};

use arrays::messages::{carry, is_good, say, send, take_out};
use arrays::{
    Arrays, BYTES, DOWN, GOOD, HEARD, HELD, OWNER, SEEN, SETS, STEPPED, add_to, has_in, load, mark,
    store,
};
use flat::consume;
use flight::{LOADS, MASKS};
use index::conflicts;
use masks::{only_site, with_site, with_site_if};
use sets::{POSTINGS, Set};
use site::{Setup, alone};
use steps::cuts::sites_to;
use steps::refusals::cut_allowed;
use steps::{Receipt, Refusal};

// What a site has heard for a posting: SECOND from these sites, and GOOD from these.
#[derive(Clone, Copy)]
struct Heard {
    seconds: u8,
    goods: u8,
}

// A SECOND without effect: its GOOD or BAD leaves with it.
fn pass_second(board: &mut Arrays, setup: Setup, receipt: Receipt) -> Result<(), Refusal>
    requires { InRange receipt }
    ensures { flat (answer_number result) board.new ≡ passed_second setup board.old receipt.posting receipt.from receipt.to receipt.cut }
{
    consume(board, setup, 1, receipt)?;
    say(
        &mut board.good,
        receipt.posting,
        receipt.from,
        1 << receipt.to,
        false,
    );
    Ok(())
}

// What site p has heard for m.
fn note_heard(bytes: &mut [u8; BYTES], p: usize, m: usize, heard: Heard)
    requires { (p < sites) × (m < capacity) }
    ensures { bytes.new ≡ hearing bytes.old p m heard.seconds heard.goods }
{
    bytes[HEARD + p * POSTINGS + m] = heard.seconds;
    bytes[GOOD + p * POSTINGS + m] = heard.goods;
}

// A SECOND heard, before the (n - f)th.
fn hear_second(
    board: &mut Arrays,
    setup: Setup,
    receipt: Receipt,
    heard: Heard,
) -> Result<(), Refusal>
    requires { InRange receipt }
    ensures { flat (answer_number result) board.new ≡ heard_second setup board.old receipt.posting receipt.from receipt.to heard.seconds heard.goods receipt.cut }
{
    pass_second(board, setup, receipt)?;
    note_heard(&mut board.bytes, receipt.to, receipt.posting, heard);
    Ok(())
}

// Whether m joins held: more than n/2 of those heard are GOOD, and seen meets C(m) in m alone.
fn joins_held(setup: Setup, seen: Set, against: Set, m: usize, heard: Heard) -> bool
    ensures { result ≡ joining setup seen against m heard.seconds heard.goods }
{
    setup.majority(heard.goods & heard.seconds) && alone(seen, against, m)
}

// The sets of a site that steps: m joins seen and stepped, and held if it may. It gives held.
fn step_sets(
    words: &mut [u64; SETS],
    setup: Setup,
    p: usize,
    m: usize,
    heard: Heard,
    against: Set,
) -> Set
    requires { (p < sites) × (m < capacity) }
    ensures value { result ≡ holding setup words.old p m heard.seconds heard.goods against }
    ensures words_after { words.new ≡ stepping words.old p m (with (slot_set words.old (seen_of p)) m) result }
{
    let old = load(words, SEEN + p);
    let seen = old.with(m);
    let joins = joins_held(setup, seen, against, m, heard);
    let kept = load(words, HELD + p);
    let held = kept.with_if(m, joins);
    store(words, SEEN + p, seen);
    store(words, HELD + p, held);
    add_to(words, STEPPED + p, m);
    held
}

// The set of a THIRD, if it goes out.
fn carry_to(carried: &mut [u64; LOADS], m: usize, from: usize, receivers: u8, load: Set)
    requires { (m < capacity) × (from < sites) }
    ensures { carried.new ≡ carrying_to carried.old m from receivers load }
{
    if receivers == 0 {
        return;
    }
    carry(carried, m, from, load);
}

// The message leaves and the THIRD goes out; what was heard is noted, and the site goes down if cut.
fn pass_on(
    bytes: &mut [u8; BYTES],
    masks: &mut [u8; MASKS],
    receipt: Receipt,
    heard: Heard,
    receivers: u8,
)
    requires { InRange receipt }
    ensures bytes_after { bytes.new ≡ marked (hearing bytes.old receipt.to receipt.posting heard.seconds heard.goods) receipt.to receipt.cut }
    ensures masks_after { masks.new ≡ sending_to (taking_from masks.old 1 receipt.posting receipt.from receipt.to) 2 receipt.posting receipt.to receivers }
{
    let Receipt {
        posting,
        from,
        to,
        cut,
    } = receipt;
    note_heard(bytes, to, posting, heard);
    mark(bytes, to, cut);
    take_out(masks, 1, posting, from, to);
    send(masks, 2, posting, to, receivers);
}

// A SECOND heard, the (n - f)th: m joins seen and stepped, and held if it may; THIRD goes to the owner.
fn step_second(
    board: &mut Arrays,
    setup: Setup,
    receipt: Receipt,
    heard: Heard,
) -> Result<(), Refusal>
    requires { InRange receipt }
    ensures { flat (answer_number result) board.new ≡ stepped_second setup board.old receipt.posting receipt.from receipt.to heard.seconds heard.goods receipt.cut }
{
    let Receipt {
        posting: m,
        from,
        to,
        cut,
    } = receipt;
    let all = only_site(board.bytes[OWNER + m]);
    cut_allowed(setup.f, board.bytes[DOWN], all, cut)?;
    let against = conflicts(&board.sets, &board.bytes, setup.matrix, m);
    let receivers = sites_to(all, cut);
    let held = step_sets(&mut board.sets, setup, to, m, heard, against);
    let share = held.meet(against);
    carry_to(&mut board.carried, m, to, receivers, share);
    say(&mut board.good, m, from, 1 << to, false);
    pass_on(
        &mut board.bytes,
        &mut board.masks,
        receipt,
        heard,
        receivers,
    );
    Ok(())
}

pub fn on_second(board: &mut Arrays, setup: Setup, receipt: Receipt) -> Result<(), Refusal>
    requires { InRange receipt }
    ensures { flat (answer_number result) board.new ≡ flat_second setup board.old receipt.posting receipt.from receipt.to receipt.cut }
{
    let m = receipt.posting;
    let from = receipt.from as u8;
    let to = receipt.to;
    let known = board.bytes[HEARD + to * POSTINGS + m];
    let done = has_in(&board.sets, STEPPED + to, m);
    if setup.late(known, from, done) {
        return pass_second(board, setup, receipt);
    }
    let seconds = with_site(known, from);
    let so = is_good(&board.good, m, receipt.from, to);
    let goods = with_site_if(board.bytes[GOOD + to * POSTINGS + m], from, so);
    let heard = Heard { seconds, goods };
    if setup.reached(seconds) {
        return step_second(board, setup, receipt, heard);
    }
    hear_second(board, setup, receipt, heard)
}
