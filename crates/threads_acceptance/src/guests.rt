//! Guests that the tests run.

/// Two harts that each add 1 to a word a thousand times. The last to end exits with what it finds there, 2000.
pub(crate) const COUNTS: &str = "        la   s0, count
        la   a0, child
        li   a1, 0
        li   a2, 0
        li   a7, 1024
        ecall
child:  la   s0, count
        li   t0, 1000
        li   t1, 1
loop:   amoadd.w zero, t1, (s0)
        addi t0, t0, -1
        bnez t0, loop
        addi s1, s0, 4
        amoadd.w t2, t1, (s1)
        beqz t2, off
        lw   a0, 0(s0)
        li   a7, 94
        ecall
off:    li   a7, 93
        ecall

        .data
count:  .word 0, 0
";

/// Stores to 62 pages of its stack, and then counts for 400,000 instructions.
pub(crate) const FITS: &str = "        lui  s0, 0x7FFC0
        lui  s1, 1
        li   t0, 62
        mv   t1, s0
store:  sw   t0, 0(t1)
        add  t1, t1, s1
        addi t0, t0, -1
        bnez t0, store
        li   t0, 200000
count:  addi t0, t0, -1
        bnez t0, count
        li   a0, 0
        li   a7, 94
        ecall
";

/// After how many instructions it has stored to each of these pages.
pub(crate) const FITS_STORED: u64 = 252;

/// How many instructions it runs.
pub(crate) const FITS_STEPS: u64 = 400_257;

/// Eight harts that take a lock four hundred times each; who finds it taken yields. Under the lock each adds 1 to a word of one of thirty
/// pages. The last to end exits with the sum of these words, 3200.
pub(crate) const TAKES_TURNS: &str = "        li   s11, 1
start:  la   a0, hart
        li   a1, 0
        mv   a2, s11
        li   a7, 1024
        ecall
        addi s11, s11, 1
        li   t0, 8
        bne  s11, t0, start
        li   a0, 0
hart:   mv   s4, a0
        la   s0, lock
        la   s1, pages
        li   s2, 400
        li   s3, 30
round:  lr.w t0, (s0)
        bnez t0, wait
        li   t1, 1
        sc.w t0, t1, (s0)
        beqz t0, taken
wait:   li   a7, 124
        ecall
        j    round
taken:  slli t1, s4, 12
        add  t1, t1, s1
        lw   t2, 0(t1)
        li   t3, 8
work:   addi t3, t3, -1
        bnez t3, work
        addi t2, t2, 1
        sw   t2, 0(t1)
        amoswap.w zero, zero, (s0)
        addi s4, s4, 7
        blt  s4, s3, next
        addi s4, s4, -30
next:   addi s2, s2, -1
        bnez s2, round
        addi t1, s0, 4
        li   t0, 1
        amoadd.w t2, t0, (t1)
        li   t0, 7
        beq  t2, t0, last
        li   a7, 93
        ecall
last:   li   a0, 0
        li   t0, 30
sum:    lw   t1, 0(s1)
        add  a0, a0, t1
        lui  t1, 1
        add  s1, s1, t1
        addi t0, t0, -1
        bnez t0, sum
        li   a7, 94
        ecall

        .data
lock:   .word 0, 0
        .space 4088
pages:  .space 61440
        .space 61440
";

/// How many instructions that takes on one thread, where there are frames for all pages.
pub(crate) const TAKES_TURNS_STEPS: u64 = 103_880;

/// Two harts that jump to themselves.
pub(crate) const SPINS: &str = "        la   a0, c
        li   a1, 0
        li   a7, 1024
        ecall
c:      j c
";
