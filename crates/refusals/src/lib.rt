// The table of documents 01 and 02: the number and the place of each refusal, one function a layer. Below, refusals are named cases; only what is handed out
// or printed needs their numbers.
#![tactic(auto)]

ghost use Rattle.std.specs.Prelude.{◌≡◌};
ghost use Rattle.refusals.specs.Table.{row, number_of_fault, routine_row, run_row, lead_row, translation_row, witness_row, proof_row, report_row, pair_row};

use routine_faults::Fault;
use slices::buffer_number;

// A row of the table, as it is returned: the number, and the place.
#[derive(Clone, Copy)]
pub struct Row {
    pub number: u8,
    pub place: usize,
}

// What stands in the table, each with its row.
pub trait Tabled {
    ghost use Rattle.refusals.specs.declared.Row.{Row};

    ghost row_of: { Self → Row };

    fn row(self) -> Row
        ensures { result ≡ row_of self };
}

impl Row {
    // The row with a number and a place.
    fn of(number: u8, place: usize) -> Row
        ensures { result ≡ row number place }
    {
        Row { number, place }
    }
}

// Rows 3 to 7, which share their place: the table of the definition, case by case.
fn number_of_fault(fault: Fault) -> u8
    ensures { result ≡ number_of_fault fault }
{
    match fault {
        Fault::Unknown => 3,
        Fault::Operand => 4,
        Fault::Widths => 5,
        Fault::Misplaced => 6,
        Fault::TooMany => 7,
    }
}

// Refusals of a routine.
impl Tabled for routine::Refusal {
    ghost row_of = { routine_row };

    fn row(self) -> Row {
        match self {
            routine::Refusal::Length => Row::of(1, 0),
            routine::Refusal::Header(at) => Row::of(2, at),
            routine::Refusal::Command(fault, at) => Row::of(number_of_fault(fault), at),
            routine::Refusal::Trailing(at) => Row::of(8, at),
        }
    }
}

// Refusals of a run.
impl Tabled for run::Refusal {
    ghost row_of = { run_row };

    fn row(self) -> Row {
        match self {
            run::Refusal::Routine(inner) => inner.row(),
            run::Refusal::InputCount(given) => Row::of(9, given),
            run::Refusal::Input(number) => Row::of(10, number),
            run::Refusal::TooSmall(buffer) => Row::of(16, buffer_number(buffer)),
        }
    }
}

// Refusals of a lead.
impl Tabled for lead::Refusal {
    ghost row_of = { lead_row };

    fn row(self) -> Row {
        match self {
            lead::Refusal::Routine(inner) => inner.row(),
            lead::Refusal::DecisionCount(given) => Row::of(11, given),
            lead::Refusal::OutOfRange(at) => Row::of(12, at),
        }
    }
}

// Refusals of a translation.
impl Tabled for translation::Refusal {
    ghost row_of = { translation_row };

    fn row(self) -> Row {
        match self {
            translation::Refusal::Lead(inner) => inner.row(),
            translation::Refusal::TooSmall(buffer) => Row::of(16, buffer_number(buffer)),
        }
    }
}

// Refusals of a report as far as its proof.
impl Tabled for report_witness::Refusal {
    ghost row_of = { witness_row };

    fn row(self) -> Row {
        match self {
            report_witness::Refusal::Lead(inner) => inner.row(),
            report_witness::Refusal::Cut(length) => Row::of(11, length),
            report_witness::Refusal::Input(number) => Row::of(10, number),
            report_witness::Refusal::Astray(number) => Row::of(13, number as usize),
            report_witness::Refusal::Missed(access) => Row::of(14, access as usize),
            report_witness::Refusal::OffSide(access) => Row::of(15, access as usize),
        }
    }
}

// What the call that hands back one of two reports tells: what is refused of a lead, or 26 where the reports are not alike, or 0 and 0 where there is
// no refusal.
pub fn row_of_pair(compared: Result<bool, report_witness::Refusal>) -> Row
    ensures { result ≡ pair_row compared }
{
    match compared {
        Err(refusal) => refusal.row(),
        Ok(true) => Row::of(0, 0),
        Ok(false) => Row::of(26, 0),
    }
}

// Refusals of a proof.
impl Tabled for proof_check::Refusal {
    ghost row_of = { proof_row };

    fn row(self) -> Row {
        match self {
            proof_check::Refusal::Unreadable(at) => Row::of(17, at),
            proof_check::Refusal::Literal(at) => Row::of(18, at),
            proof_check::Refusal::NoClause(at) => Row::of(19, at),
            proof_check::Refusal::Neither(at) => Row::of(20, at),
            proof_check::Refusal::NoConflict(at) => Row::of(21, at),
            proof_check::Refusal::AfterConflict(at) => Row::of(22, at),
            proof_check::Refusal::OutOfPlace(at) => Row::of(23, at),
            proof_check::Refusal::Trailing(after) => Row::of(24, after),
            proof_check::Refusal::Full(at) => Row::of(25, at),
        }
    }
}

// Refusals of a report.
impl Tabled for report_judgement::Refusal {
    ghost row_of = { report_row };

    fn row(self) -> Row {
        match self {
            report_judgement::Refusal::Witness(inner) => inner.row(),
            report_judgement::Refusal::TooSmall(buffer) => Row::of(16, buffer_number(buffer)),
            report_judgement::Refusal::Proof(inner) => inner.row(),
        }
    }
}
