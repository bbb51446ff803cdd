// A subframe's residual.
ghost use Rattle.std.specs.Prelude.{◌≡◌, ◌+◌, ◌-◌, ◌*◌, ◌/◌, ◌%◌, ◌^◌, ◌<◌, ◌≤◌, length, take, ◌++◌, IfOk, OnOk, OnErr};
ghost use Rattle.flac_definitions.specs.Bits.{Place};
ghost use Rattle.flac_rice.specs.Cutting.{IsCut};
ghost use Rattle.flac_rice.specs.Reading.{place_in, Fills, FillsIn, Appends, Places};
ghost use Rattle.flac_definitions.specs.Residual.{residual_at, behind_partition_order, behind_coding_method, can_be_partitioned, parameter_size, all_partitions_at};

use crate::partition::all_partitions_into;
use flac_bits::{BitReader, number_at};
use flac_definitions::ResidualFault;

/// Appends the residual of a block behind a predictor of an order. After a fault nothing is appended, and the reader
/// stands where it stood.
pub fn read_residual(
    r: &mut BitReader<'_>,
    block: u32,
    order: u32,
    out: &mut Vec<i32>,
) -> Result<(), ResidualFault>
    ensures length { OnOk result (length out.new.items ≡ length out.old.items + (block - order)) }
    ensures appended { Appends (residual_at block order r.old) result out.old.items out.new.items r.new }
    ensures bytes { r.new.bytes ≡ r.old.bytes }
    ensures err { OnErr result (r.new ≡ r.old) }
{
    let old = out.len();
    match cut_into(r.bytes(), r.at(), block, order, out) {
        Ok(at) => {
            r.move_to(at);
            Ok(())
        }
        Err(e) => {
            out.truncate(old);
            Err(e)
        }
    }
}

/// Fills in the residual of a block behind a predictor of an order, which has as many values as there are places. After a
/// fault the reader stands where it stood, and what stands in the places has no meaning.
pub fn read_residual_into(
    r: &mut BitReader<'_>,
    block: u32,
    order: u32,
    out: &mut [i32],
) -> Result<(), ResidualFault>
    requires places { length out.old ≡ block - order }
    ensures filled { FillsIn (residual_at block order r.old) result out.new r.new }
    ensures bytes { r.new.bytes ≡ r.old.bytes }
    ensures err { OnErr result (r.new ≡ r.old) }
{
    match fill(r.bytes(), r.at(), block, order, out) {
        Ok(at) => {
            r.move_to(at);
            Ok(())
        }
        Err(e) => Err(e),
    }
}

/// Fills in the residual, and gives the place behind it.
fn fill(
    bytes: &[u8],
    at: u64,
    block: u32,
    order: u32,
    out: &mut [i32],
) -> Result<u64, ResidualFault>
    requires few { length bytes.now < 2 ^ 61 }
    requires there { at ≤ 8 * length bytes.now }
    requires places { length out.old ≡ block - order }
    ensures filled { Fills (residual_at block order (place_in bytes.now at)) result bytes.now out.new }
    ensures there { IfOk result (λ at. at ≤ 8 * length bytes.now) }
{
    let cut = match cut_at(bytes, at, block, order) {
        Ok(cut) => cut,
        Err(e) => return Err(e),
    };
    let each = cut.each as usize;
    let first = each - order as usize;
    all_partitions_into(bytes, at + 6, cut.size, first, each, cut.rest, out)
}

/// Appends the residual, and gives the place behind it. A fault keeps what was there in front.
fn cut_into(
    bytes: &[u8],
    at: u64,
    block: u32,
    order: u32,
    out: &mut Vec<i32>,
) -> Result<u64, ResidualFault>
    requires few { length bytes.now < 2 ^ 61 }
    requires there { at ≤ 8 * length bytes.now }
    ensures length { OnOk result (length out.new.items ≡ length out.old.items + (block - order)) }
    ensures read { Places (residual_at block order (place_in bytes.now at)) result bytes.now out.old.items out.new.items }
    ensures there { IfOk result (λ at. at ≤ 8 * length bytes.now) }
    ensures kept { OnErr result (take (length out.old.items) out.new.items ≡ out.old.items) }
{
    let cut = match cut_at(bytes, at, block, order) {
        Ok(cut) => cut,
        Err(e) => return Err(e),
    };
    let each = cut.each as usize;
    parts_into(bytes, at + 6, cut.size, each, order as usize, cut.rest, out)
}

/// How a residual is cut into partitions.
#[derive(Clone, Copy)]
struct Cut {
    /// The bits of a parameter.
    size: u32,
    /// The values of a partition; the first has fewer by the order.
    each: u32,
    /// How many partitions follow the first.
    rest: u32,
}

/// How the residual at a place is cut; its partitions begin six bits behind.
fn cut_at(bytes: &[u8], at: u64, block: u32, order: u32) -> Result<Cut, ResidualFault>
    requires few { length bytes.now < 2 ^ 61 }
    requires there { at ≤ 8 * length bytes.now }
    ensures cut { IsCut (residual_at block order (place_in bytes.now at)) order bytes.now at result }
    ensures there { IfOk result (λ c. at + 6 ≤ 8 * length bytes.now) }
    ensures size { IfOk result (λ c. c.size ≤ 5) }
    ensures order { IfOk result (λ c. order < c.each) }
    ensures block { IfOk result (λ c. c.each - order + c.rest * c.each ≡ block - order) }
{
    let left = bytes.len() as u64 * 8 - at;
    if left < 2 {
        return Err(ResidualFault::Short { bit: at });
    }
    let method = number_at(bytes, at, 2) as u32;
    if method >= 2 {
        return Err(ResidualFault::Reserved { bit: at });
    }
    if left < 6 {
        return Err(ResidualFault::Short { bit: at + 2 });
    }
    let parts = number_at(bytes, at + 2, 4) as u32;
    if !can_be_partitioned(block, order, parts) {
        return Err(ResidualFault::Reserved { bit: at + 2 });
    }
    Ok(Cut {
        size: parameter_size(method),
        each: block >> parts,
        rest: (1 << parts) - 1,
    })
}

fn parameter_size(method: u32) -> u32
    ensures size { result ≡ parameter_size method }
    ensures few { result ≤ 5 }
{
    if method == 0 { 4 } else { 5 }
}

fn can_be_partitioned(block: u32, order: u32, parts: u32) -> bool
    requires { parts < 32 }
    ensures { result ≡ can_be_partitioned block order parts }
{
    block % (1 << parts) == 0 && order < block >> parts
}

/// Appends the values of all partitions.
fn parts_into(
    bytes: &[u8],
    at: u64,
    size: u32,
    each: usize,
    order: usize,
    rest: u32,
    out: &mut Vec<i32>,
) -> Result<u64, ResidualFault>
    requires few { length bytes.now < 2 ^ 61 }
    requires there { at ≤ 8 * length bytes.now }
    requires size { size ≤ 5 }
    requires order { order < each }
    requires block { each < 2 ^ 32 }
    ensures length { OnOk result (length out.new.items ≡ length out.old.items + (each - order + rest * each)) }
    ensures read { Places (all_partitions_at size (each - order) each rest (place_in bytes.now at)) result bytes.now out.old.items out.new.items }
    ensures there { IfOk result (λ at. at ≤ 8 * length bytes.now) }
    ensures kept { OnErr result (take (length out.old.items) out.new.items ≡ out.old.items) }
{
    let old = out.len();
    let first = each - order;
    let count = first + rest as usize * each;
    if out.reserve(count).is_err() {
        return Err(ResidualFault::NoMemory);
    }
    if out.resize(old + count, 0).is_err() {
        return Err(ResidualFault::NoMemory);
    }
    all_partitions_into(bytes, at, size, first, each, rest, &mut out[old..])
}
