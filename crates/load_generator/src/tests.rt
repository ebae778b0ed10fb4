//! A small load, whose draws were made by another program.
use super::*;
use std::alloc::AllocError;

#[test]
fn first_commands_give_each_name_its_text(rt: HostRuntime) -> Result<(), AllocError> {
    let text = load_text(rt.alloc(), 1, 1, 8)?;
    let wanted = [
        b"cords 1".as_slice(),
        b"pool 262144",
        b"passes 65536",
        b"stride 10",
        b"session s0",
        b"let n0 \"a\"*738",
        b"let n1 \"b\"*1414",
        b"let n2 \"c\"*1702",
        b"let n3 \"d\"*1275",
        b"let n4 \"e\"*199",
        b"let n5 \"f\"*1975",
        b"let n6 \"g\"*105",
        b"let n7 \"h\"*241",
        b"end",
        b"",
    ];
    let mut lines = text.as_slice().split(|b| *b == b'\n');
    for want in wanted {
        assert_eq!(rt; lines.next(), Some(want));
    }
    assert!(rt; lines.next().is_none());
    Ok(())
}

// A sum over all bytes and their places.
fn told(text: &[u8]) -> u32 {
    let mut sum = 0u32;
    for b in text {
        sum = sum.wrapping_mul(31).wrapping_add(*b as u32);
    }
    sum
}

#[test]
fn each_row_is_drawn_as_another_program_draws_it(rt: HostRuntime) -> Result<(), AllocError> {
    let text = load_text(rt.alloc(), 7, 3, 200)?;
    assert_eq!(rt; (text.len(), told(&text)), (8512, 1198331194));
    Ok(())
}
