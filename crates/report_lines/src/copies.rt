// How the result of a copy is read.
ghost use Rattle.std.specs.Prelude.{◌≡◌, ◌≢◌, IfOk, IfErr, Some, None};
ghost use Rattle.std.specs.Option.{option_map};
ghost use Rattle.report_lines.specs.Reading as spec;

use crate::fields::{FieldFault, bytes_upto, number_upto, short_upto};
use crate::words::word_at;
use report_text::{Line, StepResult};
use std::alloc::Global;
use wc_video::{Layouts, PlaneLayout};

// Where a plane went, up to the mark.
#[tactic(auto, unfolding(crate::specs::Reading::layout_at))]
fn layout_at(mark: u8, bytes: &[u8]) -> Option<(PlaneLayout, &[u8])>
    ensures { option_map (λ x. (x.0, x.1.now)) result ≡ spec.layout_at mark bytes.now }
{
    let (offset, rest) = short_upto(b':', bytes)?;
    let (stride, rest) = short_upto(mark, rest)?;
    Some((PlaneLayout { offset, stride }, rest))
}

#[tactic(auto, unfolding(crate::specs::Reading::two_layouts_at))]
fn two_layouts_at(first: PlaneLayout, bytes: &[u8]) -> Option<(Layouts, &[u8])>
    ensures { option_map (λ x. (x.0, x.1.now)) result ≡ spec.two_layouts_at first bytes.now }
{
    let (second, rest) = layout_at(b' ', bytes)?;
    let layouts = Layouts {
        count: 2,
        first,
        second,
        third: PlaneLayout {
            offset: 0,
            stride: 0,
        },
    };
    Some((layouts, rest))
}

#[tactic(auto, unfolding(crate::specs::Reading::three_layouts_at))]
fn three_layouts_at(first: PlaneLayout, bytes: &[u8]) -> Option<(Layouts, &[u8])>
    ensures { option_map (λ x. (x.0, x.1.now)) result ≡ spec.three_layouts_at first bytes.now }
{
    let (second, rest) = layout_at(b',', bytes)?;
    let (third, rest) = layout_at(b' ', rest)?;
    let layouts = Layouts {
        count: 3,
        first,
        second,
        third,
    };
    Some((layouts, rest))
}

// The mark behind the second plane tells whether a third follows.
#[tactic(auto, unfolding(crate::specs::Reading::layouts_at))]
fn layouts_at(bytes: &[u8]) -> Option<(Layouts, &[u8])>
    ensures { option_map (λ x. (x.0, x.1.now)) result ≡ spec.layouts_at bytes.now }
{
    let (first, rest) = layout_at(b',', bytes)?;
    let (_, _, stride) = word_at(rest)?;
    let (_, mark, _) = word_at(stride)?;
    if mark == b',' {
        three_layouts_at(first, rest)
    } else {
        two_layouts_at(first, rest)
    }
}

#[tactic(auto, unfolding(crate::specs::Reading::copied_bytes_at))]
fn copied_bytes_at(alloc: Global, count: u64, bytes: &[u8]) -> Result<StepResult, FieldFault>
    ensures ok { IfOk result (λ r. spec.copied_bytes_at count bytes.now ≡ Some r) }
    ensures err { IfErr result
        (λ e. e ≢ FieldFault.NoMemory → spec.copied_bytes_at count bytes.now ≡ None) }
{
    let (bytes, _) = bytes_upto(alloc, b'\n', bytes)?;
    Ok(StepResult::Copied { count, bytes })
}

#[tactic(auto, unfolding(crate::specs::Reading::copied_frame_at))]
fn copied_frame_at(alloc: Global, count: u64, bytes: &[u8]) -> Result<StepResult, FieldFault>
    ensures ok { IfOk result (λ r. spec.copied_frame_at count bytes.now ≡ Some r) }
    ensures err { IfErr result
        (λ e. e ≢ FieldFault.NoMemory → spec.copied_frame_at count bytes.now ≡ None) }
{
    let (layouts, rest) = layouts_at(bytes).ok_or(FieldFault::NoField)?;
    let (bytes, _) = bytes_upto(alloc, b'\n', rest)?;
    Ok(StepResult::CopiedFrame {
        count,
        layouts,
        bytes,
    })
}

// Behind the count of bytes the colon of a layout tells a frame.
#[tactic(auto, unfolding(crate::specs::Reading::copied_at))]
fn copied_at(alloc: Global, bytes: &[u8]) -> Result<StepResult, FieldFault>
    ensures ok { IfOk result (λ r. spec.copied_at bytes.now ≡ Some r) }
    ensures err { IfErr result (λ e. e ≢ FieldFault.NoMemory → spec.copied_at bytes.now ≡ None) }
{
    let (count, rest) = number_upto(b' ', bytes).ok_or(FieldFault::NoField)?;
    let (_, mark, _) = word_at(rest).ok_or(FieldFault::NoField)?;
    if mark == b':' {
        copied_frame_at(alloc, count, rest)
    } else {
        copied_bytes_at(alloc, count, rest)
    }
}

/// The line of a copy's result, behind its word.
#[tactic(auto, unfolding(crate::specs::Reading::copied_line_at))]
pub fn copied_line_at(alloc: Global, step: u64, bytes: &[u8]) -> Result<Line, FieldFault>
    ensures ok { IfOk result (λ l. spec.copied_line_at step bytes.now ≡ Some l) }
    ensures err { IfErr result
        (λ e. e ≢ FieldFault.NoMemory → spec.copied_line_at step bytes.now ≡ None) }
{
    let answer = copied_at(alloc, bytes)?;
    Ok(Line::Result { step, answer })
}
