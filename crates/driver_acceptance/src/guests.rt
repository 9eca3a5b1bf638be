//! Guests that need more pages than the machine has frames.

/// Stores 8, 7 down to 1 in eight pages of data, and then exits with the sum of what it loads from them.
pub(crate) const SPREADS: &str = "        la   s0, data
        li   s1, 8
        li   s2, 0x1000
store:  sw   s1, 0(s0)
        add  s0, s0, s2
        addi s1, s1, -1
        bnez s1, store
        la   s0, data
        li   s1, 8
        li   a0, 0
load:   lw   t0, 0(s0)
        add  a0, a0, t0
        add  s0, s0, s2
        addi s1, s1, -1
        bnez s1, load
        li   a7, 94
        ecall

        .data
data:   .space 32768
";

/// Adds 6, 5 down to 1 to words of six pages, three times, and exits with the sum of what it loads from them.
pub(crate) const ROUNDS: &str = "        li   s1, 3
        li   s2, 0x1000
        li   a0, 0
round:  la   s0, data
        li   s3, 6
page:   lw   t0, 0(s0)
        add  a0, a0, t0
        add  t0, t0, s3
        sw   t0, 0(s0)
        add  s0, s0, s2
        addi s3, s3, -1
        bnez s3, page
        addi s1, s1, -1
        bnez s1, round
        li   a7, 94
        ecall

        .data
data:   .space 24576
";
