//! Words, instructions and their text.

use rv_isa::{
    BranchOffset, FenceBits, Immediate, JumpOffset, Reg, ShiftAmount, UpperImmediate, decode,
    encode, write_text,
};

/// Words and their text, from the unprivileged manual's formats.
#[test]
fn words_are_instructions(rt: HostRuntime) {
    let table = [
        (0x0050_0093, "addi x1,x0,5"),
        (0x0220_8533, "mul x10,x1,x2"),
        (0x0063_A2AF, "amoadd.w x5,x6,(x7)"),
        (0x0FF0_000F, "fence"),
        (0xFFDF_F06F, "jal x0,-4"),
        (0x0001_05B7, "lui x11,16"),
        (0x0000_0297, "auipc x5,0"),
        (0x8002_8293, "addi x5,x5,-2048"),
        (0x0000_8067, "jalr x0,0(x1)"),
        (0x0000_0163, "beq x0,x0,2"),
        (0xFE62_9EE3, "bne x5,x6,-4"),
        (0x0050_9113, "slli x2,x1,5"),
        (0x0050_D113, "srli x2,x1,5"),
        (0x4050_D113, "srai x2,x1,5"),
        (0x4020_8533, "sub x10,x1,x2"),
        (0x0081_2283, "lw x5,8(x2)"),
        (0x0051_2423, "sw x5,8(x2)"),
        (0xFE55_0FA3, "sb x5,-1(x10)"),
        (0x0330_000F, "fence 51,x0,x0"),
        (0xE69F_A22F, "amomaxu.w.aqrl x4,x9,(x31)"),
        (0x1005_22AF, "lr.w x5,(x10)"),
        (0x1875_232F, "sc.w x6,x7,(x10)"),
        (0x1605_22AF, "lr.w.aqrl x5,(x10)"),
        (0x1A75_232F, "sc.w.rl x6,x7,(x10)"),
        (0x0000_0073, "ecall"),
        (0x0010_0073, "ebreak"),
    ];
    for (word, text) in table {
        let insn = decode(word).expect(&rt, "not in the table");
        let kept = insn;
        let mut written = String::new(rt.alloc());
        write_text(insn, &mut written).expect(&rt, "no fault");
        assert!(rt; written.as_str() == text);
        assert!(rt; encode(kept) == word, "{text}");
    }
}

#[test]
fn other_words_are_outside_the_table(rt: HostRuntime) {
    for word in [
        0x0000_0000,
        0xFFFF_FFFF,
        0x0250_9113,
        0x0420_8533,
        0x1015_22AF,
        0x0063_B2AF,
        0x0000_100F,
        0x0020_0073,
        0x0000_1067,
        0x0000_3003,
        0x0000_3023,
    ] {
        assert!(rt; decode(word) == None, "{word:#010x}");
    }
}

#[test]
fn operands_have_ranges(rt: HostRuntime) {
    assert!(rt; Reg::new(31).is_some_and(|it| it.index() == 31));
    assert!(rt; Reg::new(32).is_none());
    assert!(rt; UpperImmediate::new(0xF_FFFF).is_some_and(|it| it.value() == 0xF_FFFF));
    assert!(rt; ShiftAmount::new(32).is_none());
    assert!(rt; FenceBits::new(4096).is_none());
    assert!(rt; Immediate::new(-2048).is_some_and(|it| it.word() == 0xFFFF_F800));
    assert!(rt; BranchOffset::new(4095).is_none());
    assert!(rt; JumpOffset::new(-1_048_576).is_some_and(|it| it.value() == -1_048_576));
}
