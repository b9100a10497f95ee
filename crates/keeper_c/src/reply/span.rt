ghost use Rattle.keeper_c.specs.Told.{extent_in, number_of, step_of};
ghost use Rattle.layout.specs.Results.{span_of};
ghost use Rattle.std.specs.Prelude.{◌≡◌};

use super::answer;
use booking::Refusal;

/// What a span answers: all 0 where nothing is labelled.
#[repr(C)]
#[derive(Clone, Copy)]
pub struct Extent {
    pub base: i64,
    pub length: u64,
    /// 1 where the block holds codewords, else 0.
    pub codes: u64,
    pub kind: u64,
}

/// The same for a span.
pub fn answer_span(
    span: Result<Option<(i64, u64, bool, u64)>, Refusal>,
    extent: &mut Extent,
    step: &mut u32,
) -> u32
    ensures number { result ≡ number_of (span_of span) }
    ensures step { step.new ≡ step_of (span_of span) }
    ensures slot { extent.new ≡ extent_in extent.old (span_of span) }
{
    match span {
        Ok(Some((base, length, codes, kind))) => {
            *extent = Extent {
                base,
                length,
                codes: codes as u64,
                kind,
            };
            answer(Ok(()), step)
        }
        Ok(None) => {
            *extent = Extent {
                base: 0,
                length: 0,
                codes: 0,
                kind: 0,
            };
            answer(Ok(()), step)
        }
        Err(refusal) => answer(Err(refusal), step),
    }
}
