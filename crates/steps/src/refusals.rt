// The refusals of a call that hands in a sound board: the lowest that applies.
// Rests on site. Each function tests some of the causes, in rising number.
ghost use Rattle.std.specs.Prelude.{◌≤◌, ◌≡◌};
ghost use Rattle.std.specs.Int.Count.{ones};
ghost use Rattle.site.specs.Sites.{sites};
ghost use Rattle.steps.specs.CauseLists.{first_cause, site_causes, message_causes, offer_causes, cut_causes};
ghost use Rattle.steps.specs.Refusals.{answer_number};

use crate::{Cut, Refusal};
use masks::has_site;
use posting::Posting;
use sets::POSTINGS;

// The number of an answer's refusal; 0 of what is accepted.
pub fn answer_number(answer: Result<(), Refusal>) -> u8
    ensures { result ≡ answer_number answer }
{
    match answer {
        Ok(()) => 0,
        Err(refusal) => refusal.number(),
    }
}

// 7 and 8 of a site that acts.
pub fn site_acts(n: u8, down: u8, p: usize) -> Result<(), Refusal>
    ensures { answer_number result ≡ first_cause (site_causes n down p) }
{
    if usize::from(n) <= p {
        return Err(Refusal::NoSite);
    }
    if has_site(down, p as u8) {
        return Err(Refusal::SiteDown);
    }
    Ok(())
}

// 7 and 8 of a message's sender and receiver.
pub fn message_arrives(n: u8, down: u8, from: usize, to: usize) -> Result<(), Refusal>
    requires { n ≤ sites }
    ensures { answer_number result ≡ first_cause (message_causes n down from to) }
{
    let limit = usize::from(n);
    if limit <= from || limit <= to {
        return Err(Refusal::NoSite);
    }
    if (down >> to) % 2 == 1 {
        return Err(Refusal::SiteDown);
    }
    Ok(())
}

// 9 and 10 of an offer, where so many were offered.
pub fn offer_fits(posting: Posting, count: usize) -> Result<(), Refusal>
    ensures { answer_number result ≡ first_cause (offer_causes posting count) }
{
    if !posting.fields_ok() {
        return Err(Refusal::BadFields);
    }
    if POSTINGS <= count {
        return Err(Refusal::TableFull);
    }
    Ok(())
}

// 14 and 15 of a cut, of a step that sends to the sites of a mask.
pub fn cut_allowed(f: u8, down: u8, to: u8, cut: Cut) -> Result<(), Refusal>
    ensures { answer_number result ≡ first_cause (cut_causes f down (ones to) cut) }
{
    let Cut::After(j) = cut else {
        return Ok(());
    };
    if u32::from(f) <= down.count_ones() {
        return Err(Refusal::CrashLimit);
    }
    if (to.count_ones() as usize) < j {
        return Err(Refusal::CutPastSends);
    }
    Ok(())
}
