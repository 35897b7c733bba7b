// Results and flags, as a byte and a condition code byte: V is $80, H $10, I $08, N $04, Z $02 and C $01, and $60 is
// always set.
use crate::check::check_eq;
use alu::addresses::displaced;
use alu::decimal::decimal_adjust;
use alu::flags::Flags;
use alu::logic::{and, exclusive_or, or, test};
use alu::products::{divide, multiply};
use alu::shifts::{arithmetic_shift_right, rotate_left, rotate_right, shift_left, shift_right};
use alu::sums::{add, subtract};
use alu::unary::{clear, complement, decrement, increment, negate, swap_nibbles};
use std::fmt::Debug;
use std::test::Fail;

// Checks what is left: a number or two, and the flags.
fn leaves<T: PartialEq + Debug + Drop>(
    outcome: (T, Flags),
    expected: T,
    ccr: u8,
) -> Result<(), Fail> {
    let (result, flags) = outcome;
    check_eq(result, expected)?;
    check_eq(u8::from(flags), ccr)
}

#[test]
fn sums(rt: HostRuntime) -> Result<(), Fail> {
    let none = Flags::from(0x00);
    let all = Flags::from(0xFF);
    leaves(add(0xFF, 0x01, false, none), 0x00, 0x73)?;
    leaves(add(0x7F, 0x01, false, none), 0x80, 0xF4)?;
    leaves(add(0x80, 0x80, false, all), 0x00, 0xEB)?;
    leaves(add(0x0F, 0x00, true, none), 0x10, 0x70)?;
    leaves(subtract(0x00_u8, 0x01, false, none), 0xFF, 0x65)?;
    leaves(subtract(0x80_u8, 0x01, false, all), 0x7F, 0xF8)?;
    leaves(subtract(0x00_u8, 0xFF, true, none), 0x00, 0x63)?;
    leaves(decimal_adjust(0x32, Flags::from(0x71)), 0x98, 0x75)?;
    leaves(decimal_adjust(0x99, none), 0x99, 0x64)?;
    leaves(subtract(0x8000_u16, 0x0001, false, none), 0x7FFF, 0xE0)?;
    assert_eq!(rt; displaced(0x0000, 0xFF), 0xFFFF);
    assert_eq!(rt; displaced(0xFFFF, 0x7F), 0x007E);
    Ok(())
}

#[test]
fn bytes(rt: HostRuntime) -> Result<(), Fail> {
    let none = Flags::from(0x00);
    let all = Flags::from(0xFF);
    leaves(and(0xF0, 0x3C, all), 0x30, 0x79)?;
    leaves(or(0xF0, 0x3C, none), 0xFC, 0x64)?;
    leaves(exclusive_or(0x55, 0x55, none), 0x00, 0x62)?;
    leaves(test(0x80_u8, all), 0x80, 0x7D)?;
    assert_eq!(rt; u8::from(test(0x8000_u16, none).1), 0x64);
    leaves(increment(0x7F, none), 0x80, 0xE4)?;
    leaves(increment(0xFF, all), 0x00, 0x7B)?;
    leaves(decrement(0x80, none), 0x7F, 0xE0)?;
    leaves(negate(0x80, none), 0x80, 0xE5)?;
    leaves(negate(0x00, all), 0x00, 0x7A)?;
    leaves(complement(0x0F, none), 0xF0, 0x65)?;
    leaves(clear(all), 0x00, 0x7B)?;
    leaves(shift_left(0x80, none), 0x00, 0xE3)?;
    leaves(rotate_left(0x80, all), 0x01, 0xF9)?;
    leaves(shift_right(0x01, none), 0x00, 0xE3)?;
    leaves(rotate_right(0x01, all), 0x80, 0x7D)?;
    leaves(arithmetic_shift_right(0x81, none), 0xC0, 0x65)?;
    assert_eq!(rt; swap_nibbles(0x34), 0x43);
    Ok(())
}

// 255 * 255 is $FE01. $01DC / 9 is 52, the rest 8, and 5 / 9 is 0. A quotient past 255, as of 0, leaves A and H.
#[test]
fn products() -> Result<(), Fail> {
    let none = Flags::from(0x00);
    let all = Flags::from(0xFF);
    leaves(multiply(0xFF, 0xFF, all), (0xFE, 0x01), 0xEE)?;
    leaves(divide(0x01, 0xDC, 9, none), (52, 8), 0x60)?;
    leaves(divide(0x00, 0x05, 9, all), (0, 5), 0xFE)?;
    leaves(divide(0x08, 0xFF, 9, all), (255, 8), 0xFC)?;
    leaves(divide(0x09, 0x00, 9, none), (0x00, 0x09), 0x61)?;
    leaves(divide(0x12, 0x34, 0, none), (0x34, 0x12), 0x61)
}
