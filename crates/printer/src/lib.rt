// A printer that eight kiosks share (rules, section 14), turn by turn: prints arrive, and one is made for the next
// kiosk in turn that has some waiting. For every list of arrivals and every number of turns it promises the answer and
// every byte, that no print is lost, and that no kiosk waits for more than eight turns; it asks nothing of a caller.
#![tactic(auto)]

ghost use Rattle.std.specs.Prelude.{◌≡◌, ℕ, ◌+◌, ◌<◌, length, replicate, unwrap_or, IfSome};
ghost use Rattle.refusal.specs.Answers.{said, said_by, accepted, leaves};
ghost use Rattle.printer.specs.Arrivals.{arrivals, kiosk_count, keeps_limits, simulation_says};
ghost use Rattle.printer.specs.Turns.{came, idle, next_kiosk, printer, after_print, after_turn, turn_bytes};
ghost use Rattle.printer.specs.Fairness.{Fair};
ghost use Rattle.printer.specs.HowRun.{arrival_of, listed, Ready, HasPrint};

use refusal::{Answer, Fault, Refusal};

// Prints that come for a kiosk at the start of a turn.
#[derive(Clone, Copy)]
pub struct Arrival {
    pub turn: u32,
    pub kiosk: u32,
    pub prints: u32,
}

// The numbers of an arrival.
const ARRIVAL_SIZE: usize = 3;

impl From<[u32; ARRIVAL_SIZE]> for Arrival {
    ghost from_gives = { λ row arrival. arrival ≡ arrival_of row };

    fn from([turn, kiosk, prints]: [u32; ARRIVAL_SIZE]) -> Arrival {
        Arrival {
            turn,
            kiosk,
            prints,
        }
    }
}

const KIOSKS: usize = 8;

// Simulates as many turns as `bytes` has bytes, and writes the kiosk that each serves, or 255 for none. Of `numbers`
// each three are an arrival: turn, kiosk and prints.
pub fn simulate(numbers: &[u32], bytes: &mut [u8]) -> Answer
    ensures answer { said result ≡ simulation_says numbers.now (length bytes.old) }
    ensures bytes { bytes.new ≡ leaves (simulation_says numbers.now (length bytes.old)) (turn_bytes (arrivals numbers.now) (length bytes.old)) bytes.old }
    ensures fair { (turns : ℕ) → said result ≡ accepted turns → Fair (arrivals numbers.now) bytes.new }
{
    judge(numbers)?;
    run(numbers, bytes);
    Ok(bytes.len())
}

// ---- what is refused

const ARRIVAL_LIMIT: usize = 1000;

const TURN_LIMIT: u32 = 100000;

const PRINT_LIMIT: u32 = 999;

// Does arrival i keep the limits, behind one of turn `before`? Each limit is a way of its own through the function, so
// that the wrong programs of each limit are refused by a fact of its own.
#[tactic(auto, using(std::proofs::lemmas::Bool::Decides::nat_tests), unfolding(crate::specs::Arrivals::keeps_limits))]
fn keeps_limits(i: usize, before: u32, arrival: Arrival) -> bool
    ensures { result ≡ keeps_limits i before arrival }
{
    if ARRIVAL_LIMIT <= i {
        return false;
    }
    if arrival.turn < before {
        return false;
    }
    if TURN_LIMIT <= arrival.turn {
        return false;
    }
    if KIOSKS as u32 <= arrival.kiosk {
        return false;
    }
    if arrival.prints < 1 {
        return false;
    }
    arrival.prints <= PRINT_LIMIT
}

// The first arrival at fault, if there is one.
#[tactic(auto, using(crate::proofs::Judging::ends_whole, crate::proofs::Judging::ends_short))]
fn judge(numbers: &[u32]) -> Result<(), Fault>
    ensures { (turns : ℕ) → said_by (λ _. turns) result ≡ simulation_says numbers.now turns }
{
    let (rows, rest) = numbers.as_chunks::<ARRIVAL_SIZE>();
    let mut before = 0;
    for (i, row) in rows.iter().enumerate() {
        let arrival = Arrival::from(*row);
        if !keeps_limits(i, before, arrival) {
            return Err(Refusal::WrongArrival.at(i));
        }
        before = arrival.turn;
    }
    if !rest.is_empty() {
        return Err(Refusal::WrongArrival.at(rows.len()));
    }
    Ok(())
}

// ---- one turn

// The printer between two turns. Each step is lent it: where it was handed on and given back, the compiler copied it
// several times a turn.
#[derive(Drop)]
struct Printer {
    // The kiosk that the next turn looks at first.
    first: usize,
    // The number of the arrival that is to come next.
    next: usize,
    // The prints that wait for each kiosk. They stand behind the two numbers, so that the compiler sees that no write to
    // them changes these, and keeps these in registers.
    waiting: [u32; KIOSKS],
    ghost in_round: { first < kiosk_count },
}

impl Printer {
    // Nothing waits, and kiosk 0 is looked at first.
    fn new() -> Printer
        ensures waiting { result.waiting ≡ replicate kiosk_count 0 }
        ensures first { result.first ≡ 0 }
        ensures next { result.next ≡ 0 }
    {
        Printer {
            first: 0,
            next: 0,
            waiting: [0; KIOSKS],
        }
    }

    // The arrivals of a turn come.
    fn arrive(&mut self, rows: &[[u32; ARRIVAL_SIZE]], turn: usize)
        requires { Ready (listed rows.now) turn self.old.waiting self.old.next }
        ensures came { self.new.waiting ≡ came turn (listed rows.now) self.old.waiting }
        ensures first { self.new.first ≡ self.old.first }
        ensures ready { Ready (listed rows.now) (turn + 1) self.new.waiting self.new.next }
    {
        // By number: over the rows from there on, a turn takes a quarter longer where all kiosks are busy.
        for next in self.next..rows.len() {
            let arrival = Arrival::from(rows[next]);
            if arrival.turn as usize != turn {
                return;
            }
            self.waiting[arrival.kiosk as usize] += arrival.prints;
            self.next = next + 1;
        }
    }

    // The first kiosk with prints waiting, going round.
    fn next_kiosk(&self) -> Option<u8>
        ensures next { unwrap_or result idle ≡ next_kiosk self.now.waiting self.now.first }
        ensures waits { IfSome result (λ k. HasPrint self.now.waiting k) }
    {
        // The number of a kiosk is carried on: worked out anew from `first`, a turn took a quarter longer where all
        // kiosks are busy, on one of two machines.
        let mut k = self.first;
        for ahead in 0..KIOSKS {
            if self.waiting[k] != 0 {
                return Some(k as u8);
            }
            k = (k + 1) % KIOSKS;
        }
        None
    }

    // One print is made for a kiosk.
    fn serve(&mut self, kiosk: u8)
        requires { HasPrint self.old.waiting kiosk }
        ensures left { printer self.new.waiting self.new.first ≡ after_print self.old.waiting self.old.first kiosk }
        ensures next { self.new.next ≡ self.old.next }
    {
        let k = kiosk as usize;
        self.waiting[k] -= 1;
        self.first = (k + 1) % KIOSKS;
    }

    // One turn: its arrivals come, then one print is made. The result is the kiosk that is served.
    #[tactic(auto, using(crate::proofs::Running::unused_turn))]
    fn take_turn(&mut self, rows: &[[u32; ARRIVAL_SIZE]], turn: usize) -> Option<u8>
        requires { Ready (listed rows.now) turn self.old.waiting self.old.next }
        ensures byte { unwrap_or result idle ≡ next_kiosk (came turn (listed rows.now) self.old.waiting) self.old.first }
        ensures left { printer self.new.waiting self.new.first ≡ after_turn (listed rows.now) turn (printer self.old.waiting self.old.first) }
        ensures ready { Ready (listed rows.now) (turn + 1) self.new.waiting self.new.next }
    {
        self.arrive(rows, turn);
        let kiosk = self.next_kiosk()?;
        self.serve(kiosk);
        Some(kiosk)
    }
}

// ---- all turns

// What is written for a kiosk where none is served.
const IDLE: u8 = 255;

// Simulates as many turns as `bytes` has bytes.
fn run(numbers: &[u32], bytes: &mut [u8])
    requires { simulation_says numbers.now (length bytes.old) ≡ accepted (length bytes.old) }
    ensures { bytes.new ≡ turn_bytes (arrivals numbers.now) (length bytes.old) }
{
    let (rows, _) = numbers.as_chunks::<ARRIVAL_SIZE>();
    let mut printer = Printer::new();
    for (turn, byte) in bytes.iter_mut().enumerate() {
        *byte = printer.take_turn(rows, turn).unwrap_or(IDLE);
    }
}
