// THIRD m received at m's owner: tallied; at the (n - f)th m is finished, and DELIVER goes to all or m's entry into the pool. A late one is
// consumed without effect. Rests on flat.
ghost use Rattle.std.specs.Prelude.{◌<◌, ◌≡◌};
ghost use Rattle.sets.specs.Sets.{capacity};
ghost use Rattle.steps.specs.Refusals.{answer_number};
ghost use Rattle.steps.specs.Receipts.{InRange};
ghost use Rattle.flat.specs.Flat.{flat, passed_third, tallying, heard_third, finishing, entering, sent_third, pooled_third, concluded_third, flat_third};

use arrays::messages::{carried_set, carry, send, take_out};
use arrays::{
    Arrays, BYTES, DOWN, ENTRY, FINISHED, HAS, POOL, SETS, TALLIED, UNION, add_to, has_in, load,
    mark, store,
};
use flat::consume;
use masks::{every_site, with_site, with_site_if};
use sets::Set;
use site::{Setup, Tally};
use steps::cuts::sites_to;
use steps::refusals::cut_allowed;
use steps::{Receipt, Refusal};

// A THIRD without effect: its set leaves with it.
fn pass_third(board: &mut Arrays, setup: Setup, receipt: Receipt) -> Result<(), Refusal>
    requires { InRange receipt }
    ensures { flat (answer_number result) board.new ≡ passed_third setup board.old receipt.posting receipt.from receipt.to receipt.cut }
{
    consume(board, setup, 2, receipt)?;
    carry(
        &mut board.carried,
        receipt.posting,
        receipt.from,
        Set::empty(),
    );
    Ok(())
}

// The masks of m's tally: THIRD heard from these sites, and those whose set had m.
fn note_tally(bytes: &mut [u8; BYTES], m: usize, tally: Tally)
    requires { m < capacity }
    ensures { bytes.new ≡ tallying bytes.old m tally.heard tally.has }
{
    bytes[TALLIED + m] = tally.heard;
    bytes[HAS + m] = tally.has;
}

// A THIRD heard, before the (n - f)th.
fn hear_third(
    board: &mut Arrays,
    setup: Setup,
    receipt: Receipt,
    tally: Tally,
) -> Result<(), Refusal>
    requires { InRange receipt }
    ensures { flat (answer_number result) board.new ≡ heard_third setup board.old receipt.posting receipt.from receipt.to tally.heard tally.has tally.union receipt.cut }
{
    let m = receipt.posting;
    pass_third(board, setup, receipt)?;
    note_tally(&mut board.bytes, m, tally);
    store(&mut board.sets, UNION + m, tally.union);
    Ok(())
}

// A THIRD heard, the (n - f)th: m is finished, but for what is sent.
fn finish(board: &mut Arrays, receipt: Receipt, tally: Tally)
    requires { InRange receipt }
    ensures { board.new ≡ finishing board.old receipt.posting receipt.from receipt.to tally.heard tally.has tally.union receipt.cut }
{
    let Receipt {
        posting: m,
        from,
        to,
        cut,
    } = receipt;
    store(&mut board.sets, UNION + m, tally.union);
    add_to(&mut board.sets, FINISHED + to, m);
    note_tally(&mut board.bytes, m, tally);
    mark(&mut board.bytes, to, cut);
    take_out(&mut board.masks, 2, m, from, to);
    carry(&mut board.carried, m, from, Set::empty());
}

// DELIVER goes to all.
fn send_deliver(
    board: &mut Arrays,
    setup: Setup,
    receipt: Receipt,
    tally: Tally,
) -> Result<(), Refusal>
    requires { InRange receipt }
    ensures { flat (answer_number result) board.new ≡ sent_third setup board.old receipt.posting receipt.from receipt.to tally.heard tally.has tally.union receipt.cut }
{
    let all = every_site(setup.n);
    cut_allowed(setup.f, board.bytes[DOWN], all, receipt.cut)?;
    let receivers = sites_to(all, receipt.cut);
    finish(board, receipt, tally);
    send(&mut board.masks, 3, receipt.posting, receipt.to, receivers);
    Ok(())
}

// m's entry into the pool, if it goes out.
fn enter_pool(words: &mut [u64; SETS], m: usize, receivers: u8, union: Set)
    requires { m < capacity }
    ensures { words.new ≡ entering words.old m receivers union }
{
    if receivers == 0 {
        return;
    }
    add_to(words, POOL, m);
    store(words, ENTRY + m, union);
}

// m's entry goes into the pool: one send.
fn send_entry(
    board: &mut Arrays,
    setup: Setup,
    receipt: Receipt,
    tally: Tally,
) -> Result<(), Refusal>
    requires { InRange receipt }
    ensures { flat (answer_number result) board.new ≡ pooled_third setup board.old receipt.posting receipt.from receipt.to tally.heard tally.has tally.union receipt.cut }
{
    cut_allowed(setup.f, board.bytes[DOWN], 1, receipt.cut)?;
    let receivers = sites_to(1, receipt.cut);
    finish(board, receipt, tally);
    enter_pool(&mut board.sets, receipt.posting, receivers, tally.union);
    Ok(())
}

// A THIRD that is not late, once its set has joined the union: more than n/2 of the carried sets contain m if the mask of their senders has
// so many ones.
fn conclude_third(
    board: &mut Arrays,
    setup: Setup,
    receipt: Receipt,
    tally: Tally,
) -> Result<(), Refusal>
    requires { InRange receipt }
    ensures { flat (answer_number result) board.new ≡ concluded_third setup board.old receipt.posting receipt.from receipt.to tally.heard tally.has tally.union receipt.cut }
{
    if setup.reached(tally.heard) {
        if setup.majority(tally.has & tally.heard) {
            return send_deliver(board, setup, receipt, tally);
        }
        return send_entry(board, setup, receipt, tally);
    }
    hear_third(board, setup, receipt, tally)
}

pub fn on_third(board: &mut Arrays, setup: Setup, receipt: Receipt) -> Result<(), Refusal>
    requires { InRange receipt }
    ensures { flat (answer_number result) board.new ≡ flat_third setup board.old receipt.posting receipt.from receipt.to receipt.cut }
{
    let m = receipt.posting;
    let from = receipt.from as u8;
    let known = board.bytes[TALLIED + m];
    let done = has_in(&board.sets, FINISHED + receipt.to, m);
    if setup.late(known, from, done) {
        return pass_third(board, setup, receipt);
    }
    let set = carried_set(&board.carried, m, receipt.from);
    let heard = with_site(known, from);
    let holds = set.has(m);
    let has = with_site_if(board.bytes[HAS + m], from, holds);
    let old = load(&board.sets, UNION + m);
    let union = old.join(set);
    let tally = Tally { heard, has, union };
    conclude_third(board, setup, receipt, tally)
}
