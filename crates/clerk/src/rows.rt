// Rows of amounts, read back.
use booking::{Amounts, Refusal, Trace};
use keeper::Keeper;
use store::Store;

/// The most amounts of a row that are shown.
pub(crate) const SHOWN: usize = 12;

/// Reads as many amounts as the row at a trace has, up to twelve, from its first subscript on.
pub(crate) fn read_row<'a, S: Store>(
    keeper: &Keeper<S>,
    trace: &Trace,
    first: i32,
    amounts: &'a mut [i64; SHOWN],
) -> Result<&'a [i64], Refusal> {
    let length = keeper.span(trace)?.map_or(0, |(_, length, _, _)| length);
    let read = &mut amounts[..length.min(SHOWN as u64) as usize];
    keeper.read_row::<Amounts>(trace, first, read)?;
    Ok(read)
}
