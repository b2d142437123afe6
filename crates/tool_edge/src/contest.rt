// A ballot file with an order of lots.
ghost use Rattle.std.specs.Prelude.{◌≡◌, ◌+◌, ◌^◌, ◌<◌, length, IfErr, IfOk};
ghost use Rattle.lot_order.specs.Lots.{IsLotsStop, IsOrder};
ghost use Rattle.lot_order.specs.declared.lots_stop.LotsStop.{LotsStop};
ghost use Rattle.input_text.specs.Reads.{OnFault};
ghost use Rattle.tool_edge.specs.Contest.{ReadsBehind, ReadsContest, ReadsStored, lots_stop, stop_behind};

use blt_reader::{
    BltStop, Election, FaultKind, InputFault, LineReader, OneByOne, StoredElection, read_blt,
    read_blt_by,
};
use candidate_roll::Roll;
use lot_order::{Lots, LotsStop};
use packed_ballots::BallotStore;
use std::alloc::Global;

/// An election, and the order of lots of its candidates by which it is counted.
#[derive(Debug, Drop)]
pub struct Contest {
    pub election: Election,
    pub lots: Lots,
}

/// The same, with its ballots in a store of any kind.
#[derive(Drop)]
pub struct StoredContest<B> {
    pub election: StoredElection<B>,
    pub lots: Lots,
}

impl Contest {
    /// Reads a ballot file, and takes these lots for it. The file is judged before the lots.
    pub fn read(alloc: Global, lots: &[u32], input: &[u8]) -> Result<Contest, BltStop>
        ensures { ReadsContest lots.now input.now result }
    {
        let election = read_blt(alloc, input)?;
        let lots = lots_for(alloc, &election.roll, lots)?;
        Ok(Contest { election, lots })
    }

    /// The same of a ballot file that is after so many bytes: a fault of the file has its place in the whole.
    pub fn read_behind(
        alloc: Global,
        before: usize,
        lots: &[u32],
        file: &[u8],
    ) -> Result<Contest, BltStop>
        requires { before + length file.now + 2 < 2 ^ 64 }
        ensures { ReadsBehind before lots.now file.now result }
    {
        let election = match read_blt(alloc, file) {
            Ok(election) => election,
            Err(stop) => return Err(stop_behind(before, stop)),
        };
        let lots = lots_for(alloc, &election.roll, lots)?;
        Ok(Contest { election, lots })
    }
}

impl<B: BallotStore + Drop> StoredContest<B> {
    /// Reads a ballot file into a store, and takes these lots for it. The file is judged before the lots.
    pub fn read(alloc: Global, lots: &[u32], input: &[u8]) -> Result<StoredContest<B>, BltStop>
        ensures { ReadsStored B.holds B.among lots.now input.now result }
    {
        StoredContest::read_by(alloc, lots, input, &OneByOne)
    }

    /// The same, with the ballot lines read in a way of the caller's.
    pub fn read_by<L: LineReader<B>>(
        alloc: Global,
        lots: &[u32],
        input: &[u8],
        how: &L,
    ) -> Result<StoredContest<B>, BltStop>
        ensures { ReadsStored B.holds B.among lots.now input.now result }
    {
        let election = read_blt_by(alloc, input, how)?;
        let lots = lots_for(alloc, &election.roll, lots)?;
        Ok(StoredContest { election, lots })
    }
}

/// These lots, if they are an order of the roll's candidates.
fn lots_for(alloc: Global, roll: &Roll, lots: &[u32]) -> Result<Lots, BltStop>
    ensures lots { IfOk result (λ order. (order ≡ lots.now) × IsOrder lots.now × (length lots.now ≡ length roll.now.names)) }
    ensures stop { IfErr result (λ stop. (why : LotsStop) × IsLotsStop (length roll.now.names) lots.now why
        × (stop ≡ lots_stop (length lots.now) why)) }
{
    match Lots::try_new(alloc, lots, roll.candidates()) {
        Ok(order) => Ok(order),
        Err(stop) => Err(lots_stop(lots, stop)),
    }
}

/// A fault of what is after so many bytes gets its place in the whole.
fn stop_behind(before: usize, stop: BltStop) -> BltStop
    requires { OnFault stop (λ fault. before + fault.at < 2 ^ 64) }
    ensures { result ≡ stop_behind before stop }
{
    match stop {
        BltStop::Fault(InputFault { kind, at }) => BltStop::Fault(InputFault {
            kind,
            at: before + at,
        }),
        BltStop::NoMemory => BltStop::NoMemory,
    }
}

/// What lots that are no order of all candidates are refused for, or that memory is wanted.
fn lots_stop(lots: &[u32], stop: LotsStop) -> BltStop
    ensures { result ≡ lots_stop (length lots.now) stop }
{
    let at = match stop {
        LotsStop::Twice(place) => place,
        LotsStop::OutOfRange(place) => place,
        LotsStop::NotAll(_) => lots.len() + 1,
        LotsStop::NoMemory => return BltStop::NoMemory,
    };
    BltStop::refused(FaultKind::BadLots, at)
}
