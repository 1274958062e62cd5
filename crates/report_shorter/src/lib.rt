// Of two reports that are alike the shorter one, itself and not a copy.
#![tactic(auto)]

ghost use Rattle.std.specs.Prelude.{◌≡◌};
ghost use Rattle.report_alike.specs.Alike.{alike};
ghost use Rattle.refusals.specs.Table.{row, pair_row};
ghost use Rattle.report_shorter.specs.Shorter.{HandsBack};

use refusals::row_of_pair;
use report_alike::alike;

// Hands back the shorter of two reports that are alike, the first when they are equal in length, and tells 0 and 0. Otherwise it tells the number and the
// place of the refusal, and hands back the first 0 bytes of the first.
pub fn shorter<'a>(
    routine: &[u8],
    first: &'a [u8],
    second: &'a [u8],
    number: &mut u8,
    place: &mut usize,
) -> &'a [u8]
    ensures hands_back { HandsBack (alike routine.now first.now second.now) first.entry second.entry result }
    ensures place_after { row number.new place.new ≡ pair_row (alike routine.now first.now second.now) }
{
    let compared = alike(routine, first, second);
    let told = row_of_pair(compared);
    *number = told.number;
    *place = told.place;
    match compared {
        Err(_) => &first[..0],
        Ok(same) => {
            if !same {
                return &first[..0];
            }
            if second.len() < first.len() {
                return second;
            }
            first
        }
    }
}
