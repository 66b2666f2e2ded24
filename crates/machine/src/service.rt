// The service: a board takes any call with any arguments, by value. An unsound board is refused first (6); a sound one is laid out on arrays,
// takes the call in place, and is taken off them. Rests on laying and taking, on events.

ghost use Rattle.std.specs.Prelude.{◌≡◌, true, false};
ghost use Rattle.steps.specs.Refusals.{answer_number};
ghost use Rattle.machine.specs.Soundness.{is_sound};
ghost use Rattle.machine.specs.ByMask.{answered_by, refusing};
ghost use Rattle.machine.specs.Calls.{answer_of, refusal_of, offering, receiving, ordering, reading, crashing};
ghost use Rattle.machine.specs.Runs.{taking};

use crate::laying::lay_out;
use crate::taking::board_of;
use crate::{Answer, Board, Outcome};
use events::perform;
use steps::{Call, Cut, Refusal};

// The board that a call leaves, and whether it was accepted.
#[derive(Drop)]
struct Taken {
    board: Board,
    answer: Result<(), Refusal>,
}

// What a call answers that answers so where it is accepted.
fn outcome(taken: Taken, accepted: Answer) -> Outcome
    ensures { result ≡ answered_by accepted taken.board (answer_number taken.answer) }
{
    let answer = match taken.answer {
        Ok(()) => accepted,
        Err(refusal) => Answer::Refused(refusal.number()),
    };
    Outcome {
        board: taken.board,
        answer,
    }
}

impl Board {
    // A call, of a sound board.
    fn take(self, call: Call) -> Taken
        requires { is_sound self ≡ true }
        ensures board_value { result.board ≡ (taking self call).board }
        ensures answer_value { answer_number result.answer ≡ refusal_of (taking self call).answer }
    {
        let setup = self.setup;
        let mut arrays = lay_out(self);
        let answer = perform(&mut arrays, setup, call);
        Taken {
            board: board_of(&arrays, setup),
            answer,
        }
    }

    // A call, which answers so where it is accepted. An unsound board is refused. Inlined: a board has 95 kB, and each call hands it over whole.
    #[inline(always)]
    fn respond(self, call: Call, accepted: Answer) -> Outcome
        ensures unsound { is_sound self ≡ false → result ≡ refusing self 6 }
        ensures sound { is_sound self ≡ true → result ≡ answered_by accepted (taking self call).board (refusal_of (taking self call).answer) }
    {
        if !self.is_sound() {
            return Outcome {
                board: self,
                answer: Answer::Refused(Refusal::Unsound.number()),
            };
        }
        outcome(self.take(call), accepted)
    }

    // Offer: the posting gets its number; FIRST goes to all n sites.
    pub fn offer(
        self,
        site: usize,
        kind: u8,
        account: u8,
        other: u8,
        amount: u32,
        cut: Cut,
    ) -> Outcome
        ensures value { result ≡ offering self site kind account other amount cut }
        ensures answer_value { answer_of result.answer ≡ answer_of (offering self site kind account other amount cut).answer }
    {
        let number = self.table.count;
        let call = Call::Offer {
            site,
            kind,
            a: account,
            b: other,
            amount,
            cut,
        };
        self.respond(call, Answer::Offered(number))
    }

    // Receive: the message leaves the flight, and its receiver takes the step of its form.
    pub fn receive(self, form: usize, m: usize, from: usize, to: usize, cut: Cut) -> Outcome
        ensures value { result ≡ receiving self form m from to cut }
        ensures answer_value { answer_of result.answer ≡ answer_of (receiving self form m from to cut).answer }
    {
        let call = Call::Receive {
            form,
            posting: m,
            from,
            to,
            cut,
        };
        self.respond(call, Answer::Done)
    }

    // Order: the oracle moves m's entry from the pool to the end of the log.
    pub fn order(self, m: usize) -> Outcome
        ensures value { result ≡ ordering self m }
        ensures answer_value { answer_of result.answer ≡ answer_of (ordering self m).answer }
    {
        self.respond(Call::Order { posting: m }, Answer::Done)
    }

    // Read: a site takes the log's next entry.
    pub fn read(self, site: usize, cut: Cut) -> Outcome
        ensures value { result ≡ reading self site cut }
        ensures answer_value { answer_of result.answer ≡ answer_of (reading self site cut).answer }
    {
        self.respond(Call::Read { site, cut }, Answer::Done)
    }

    // Crash: a site goes down for good.
    pub fn crash(self, site: usize) -> Outcome
        ensures value { result ≡ crashing self site }
        ensures answer_value { answer_of result.answer ≡ answer_of (crashing self site).answer }
    {
        self.respond(Call::Crash { site }, Answer::Done)
    }
}
