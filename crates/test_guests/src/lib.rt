//! What acceptance tests of several crates share: guests, and numbers that look random.
#![tactic(auto)]

ghost use Rattle.std.specs.Prelude.{◌<◌};

/// Two harts that go at random over eight pages of data, 0x11 to 0x18: each loads a word, and stores another sum in its
/// place or not.
pub const WANDERS: &str = "        la   s0, data
        li   s1, 0x12345678
        li   s4, 0x7FFC
        la   a0, child
        li   a1, 0
        li   a2, 0
        li   a7, 1024
        ecall
loop:   slli t0, s1, 13
        xor  s1, s1, t0
        srli t0, s1, 17
        xor  s1, s1, t0
        slli t0, s1, 5
        xor  s1, s1, t0
        srli t1, s1, 3
        and  t1, t1, s4
        add  t1, t1, s0
        lw   t2, 0(t1)
        add  s2, s2, t2
        andi t3, s1, 1
        bnez t3, loop
        add  t2, t2, s1
        sw   t2, 0(t1)
        andi t3, s1, 2
        bnez t3, loop
        amoadd.w t4, s1, (t1)
        j    loop
child:  la   s0, data
        li   s1, 0x2468ACE1
        li   s4, 0x7FFC
        j    loop

        .data
data:   .space 32768
";

/// Stores a byte in its page of data, 0x11, with the fourth instruction, and ends with the seventh.
pub const STORES_A_BYTE: &str = "        la   s0, buf
        li   t0, 5
        sb   t0, 3(s0)
        li   a0, 0
        li   a7, 94
        ecall

        .data
buf:    .word 0
";

/// Stores 11, 10 down to 1 in the first eleven pages of its stack, and writes the sum of what it loads from them as one byte, `B`.
pub const WRITES_A_SUM: &str = "        lui  s0, 0x7FFC0
        lui  s1, 1
        li   t0, 11
        mv   t1, s0
store:  sw   t0, 0(t1)
        add  t1, t1, s1
        addi t0, t0, -1
        bnez t0, store
        li   t0, 11
        mv   t1, s0
        li   t2, 0
load:   lw   t3, 0(t1)
        add  t2, t2, t3
        add  t1, t1, s1
        addi t0, t0, -1
        bnez t0, load
        sb   t2, 0(s0)
        mv   a1, s0
        li   a2, 1
        li   a7, 64
        ecall
        li   a0, 0
        li   a7, 94
        ecall
";

/// The first nine words write a line and end; the last one is the line.
pub const WRITES_A_LINE: [u32; 10] = [
    0x0001_05B7,
    0x0245_8593,
    0x0010_0513,
    0x0030_0613,
    0x0400_0893,
    0x0000_0073,
    0x0000_0513,
    0x05E0_0893,
    0x0000_0073,
    0x000A_6968,
];

/// Numbers that look random, the same ones from the same seed.
#[derive(Drop)]
pub struct Random {
    state: u64,
}

impl Random {
    pub fn new(seed: u64) -> Self {
        Random { state: seed }
    }

    /// The next number, below a bound.
    pub fn below(&mut self, bound: u32) -> u32
        requires { 0 < bound }
        ensures { result < bound }
    {
        self.state = self
            .state
            .wrapping_mul(6_364_136_223_846_793_005)
            .wrapping_add(1_442_695_040_888_963_407);
        ((self.state >> 33) % u64::from(bound)) as u32
    }
}
