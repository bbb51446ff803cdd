use crate::bytes_tests::holds;
use flac_plans::{RicePlan, best_parameters, write_residual};
use flac_write::BitWriter;
use std::alloc::Global;

/// A residual behind a predictor of an order, and the greatest partition order to try.
#[derive(Drop)]
struct Row<'a> {
    residual: &'a [i32],
    order: u32,
    most: u32,
    parameters: &'a [u8],
    bits: u64,
    bytes: &'a [u8],
}

fn is_plan(plan: &RicePlan, row: &Row) -> bool {
    &plan.parameters[..] == row.parameters
        && 1 << plan.partition.min(15) == row.parameters.len()
        && plan.bits == row.bits
}

/// Whether a row's plan is the first with the fewest bits, and its bytes are written.
fn is_best(alloc: Global, row: &Row) -> bool {
    let count = row.residual.len();
    if count < 1 || count > 100 || row.order > 32 || row.most > 15 {
        return false;
    }
    let block = count as u32 + row.order;
    let Ok(plan) = best_parameters(alloc, row.residual, block, row.order, row.most) else {
        return false;
    };
    let mut w = BitWriter::new(alloc);
    is_plan(&plan, row)
        && write_residual(&mut w, row.residual, block, row.order, &plan).is_ok()
        && holds(w, row.bytes)
}

/// The plans and bytes that a search of all plans finds.
#[test]
fn plans_of_the_fewest_bits(rt: HostRuntime) {
    let alloc = rt.alloc();
    let rows = [
        Row {
            residual: &[0, -1, 1, -2, 2, -3, 3, -4],
            order: 0,
            most: 6,
            parameters: &[1],
            bits: 38,
            bytes: &[0x00, 0x6d, 0x32, 0x31, 0x0c],
        },
        Row {
            residual: &[100, -100, 3, 2, 1, 0, 0],
            order: 1,
            most: 6,
            parameters: &[7, 0],
            bits: 50,
            bytes: &[0x05, 0xd9, 0x0c, 0x78, 0x60, 0x09, 0xc0],
        },
        Row {
            residual: &[0; 15],
            order: 1,
            most: 6,
            parameters: &[0],
            bits: 25,
            bytes: &[0x00, 0x3f, 0xff, 0x80],
        },
        Row {
            residual: &[1000, -20000, 5, 6],
            order: 0,
            most: 6,
            parameters: &[13, 3],
            bits: 56,
            bytes: &[0x07, 0x67, 0xd0, 0x0f, 0x0f, 0xcd, 0x4c],
        },
        Row {
            residual: &[70000, -3, 2, 5, 1, 1],
            order: 0,
            most: 0,
            parameters: &[14],
            bits: 108,
            bytes: &[
                0x03, 0x80, 0x31, 0x70, 0x40, 0x05, 0x80, 0x09, 0x00, 0x2a, 0x00, 0x14, 0x00, 0x20,
            ],
        },
    ];
    for row in &rows {
        assert!(rt; is_best(alloc, row));
    }
}
