// Offer, order, read and crash, whole and cut, with their refusals.
// Rests on flat.
#![tactic(auto)]

ghost use Rattle.std.specs.Prelude.{◌<◌, ◌≤◌, ◌≡◌};
ghost use Rattle.sets.specs.Sets.{capacity};
ghost use Rattle.site.specs.Sites.{sites};
ghost use Rattle.delivery.specs.Delivery.{laid_of, with_laid};
ghost use Rattle.steps.specs.Refusals.{answer_number};
ghost use Rattle.flat.specs.Flat.{flat, entered, flat_offer, logging, flat_order, entry_delivered_to, flat_read, flat_crash, LogFits};

use arrays::messages::send;
use arrays::{
    Arrays, BYTES, DOWN, FROM, INTO, KIND, LOG, LOGGED, OFFERED, OWNER, PLACE, POOL, drop_from,
    has_in, mark,
};
use delivery::deliver_entry;
use index::enter;
use masks::{every_site, with_site};
use posting::Posting;
use sets::POSTINGS;
use site::Setup;
use steps::cuts::sites_to;
use steps::refusals::{cut_allowed, offer_fits, site_acts};
use steps::{Cut, Refusal};

// A posting's row but for its amount.
fn enter_row(bytes: &mut [u8; BYTES], m: usize, posting: Posting)
    requires { m < capacity }
    ensures { bytes.new ≡ entered bytes.old m posting }
{
    bytes[OWNER + m] = posting.owner;
    bytes[KIND + m] = posting.kind;
    bytes[FROM + m] = posting.a;
    bytes[INTO + m] = posting.b;
}

// Offer: the posting gets its number; FIRST goes to all n sites.
pub fn offer(
    board: &mut Arrays,
    setup: Setup,
    site: usize,
    kind: u8,
    account: u8,
    other: u8,
    amount: u32,
    cut: Cut,
) -> Result<(), Refusal>
    requires { setup.n ≤ sites }
    ensures { flat (answer_number result) board.new ≡ flat_offer setup board.old site kind account other amount cut }
{
    let down = board.bytes[DOWN];
    site_acts(setup.n, down, site)?;
    let posting = Posting {
        owner: site as u8,
        kind,
        a: account,
        b: other,
        amount,
    };
    let m = board.counts[OFFERED];
    offer_fits(posting, m)?;
    let all = every_site(setup.n);
    cut_allowed(setup.f, down, all, cut)?;
    let receivers = sites_to(all, cut);
    board.counts[OFFERED] = m + 1;
    board.amounts[m] = amount;
    enter_row(&mut board.bytes, m, posting);
    enter(&mut board.sets, m, kind, account, other);
    send(&mut board.masks, 0, m, site, receivers);
    mark(&mut board.bytes, site, cut);
    Ok(())
}

// m at the end of the log; a full log stays.
fn append_log(board: &mut Arrays, m: usize)
    requires { m < capacity }
    ensures { board.new ≡ logging board.old m }
{
    let count = board.counts[LOGGED];
    if POSTINGS <= count {
        return;
    }
    board.counts[LOGGED] = count + 1;
    board.bytes[LOG + count] = m as u8;
}

// Order: the oracle moves m's entry from the pool to the end of the log.
pub fn order(board: &mut Arrays, m: usize) -> Result<(), Refusal>
    ensures { flat (answer_number result) board.new ≡ flat_order board.old m }
{
    if POSTINGS <= m {
        return Err(Refusal::NotInPool);
    }
    if !has_in(&board.sets, POOL, m) {
        return Err(Refusal::NotInPool);
    }
    drop_from(&mut board.sets, POOL, m);
    append_log(board, m);
    Ok(())
}

// Site p delivers m's entry, unless its step is cut: nothing is delivered then.
fn deliver_entry_to(board: &mut Arrays, p: usize, m: usize, cut: Cut)
    requires { (p < sites) × (m < capacity) }
    ensures { board.new ≡ with_laid board.old (entry_delivered_to (laid_of board.old) p m cut) }
{
    match cut {
        Cut::Whole => deliver_entry(board, p, m),
        Cut::After(_) => {}
    }
}

// Read: a site takes the log's next entry.
pub fn read(board: &mut Arrays, setup: Setup, site: usize, cut: Cut) -> Result<(), Refusal>
    requires { (setup.n ≤ sites) × LogFits board.old.counts board.old.bytes }
    ensures { flat (answer_number result) board.new ≡ flat_read setup board.old site cut }
{
    let down = board.bytes[DOWN];
    site_acts(setup.n, down, site)?;
    let place = board.counts[PLACE + site];
    let logged = board.counts[LOGGED];
    if logged <= place {
        return Err(Refusal::LogRead);
    }
    cut_allowed(setup.f, down, 0, cut)?;
    let m = usize::from(board.bytes[LOG + place]);
    board.counts[PLACE + site] = place + 1;
    mark(&mut board.bytes, site, cut);
    deliver_entry_to(board, site, m, cut);
    Ok(())
}

// Crash: a site goes down for good.
pub fn crash(board: &mut Arrays, setup: Setup, site: usize) -> Result<(), Refusal>
    requires { setup.n ≤ sites }
    ensures { flat (answer_number result) board.new ≡ flat_crash setup board.old site }
{
    let down = board.bytes[DOWN];
    site_acts(setup.n, down, site)?;
    let crashes = u32::from(setup.f);
    let lost = down.count_ones();
    if crashes <= lost {
        return Err(Refusal::CrashLimit);
    }
    board.bytes[DOWN] = with_site(down, site as u8);
    Ok(())
}
