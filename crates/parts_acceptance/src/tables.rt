//! Page tables of words.

use page_memory::{Access, Rights};
use std::process::Abort;
use sv32_table::{NoTable, PageTables, Pte, Tables, WalkFault};

#[test]
fn flags_are_the_manuals(rt: HostRuntime) {
    let flags = Pte::VALID | Pte::READ | Pte::WRITE | Pte::USER | Pte::ACCESSED | Pte::DIRTY;
    assert!(rt; 5 * 1024 + u64::from(flags.0) == 0x14D7);
    assert!(rt; Pte(0x14D7).ppn() == 5);
    assert!(rt; Pte(0x14D7).is_dirty() && !Pte(0x1457).is_dirty());
}

/// What a walk of page 0x12 faults with, if it does.
fn fault_of(tables: &mut Tables, access: Access) -> Option<WalkFault> {
    tables.walk(0x1_2000, access).err()
}

fn nothing_is_mapped(rt: &impl Abort, tables: &mut Tables) {
    assert!(rt; tables.set(1, 0, 0) == Err(NoTable));
    assert!(rt; fault_of(tables, Access::Load) == Some(WalkFault::PageFault));
}

fn is_mapped(rt: &impl Abort, tables: &mut Tables) {
    let mapped = tables.map(0x12, 5, Rights::READ | Rights::WRITE, true);
    assert!(rt; mapped.is_ok());
    // The word that the root has: a pointer to table 1.
    assert!(rt; tables.set(0, 0, 0x8000_0401) == Ok(()));
    assert!(rt; tables.lookup(0x12) == Some(Pte(0x1457)));
}

fn is_walked(rt: &impl Abort, tables: &mut Tables) {
    let leaf = tables.walk(0x1_2000, Access::Store).expect(rt, "mapped");
    assert!(rt; (leaf.pte, leaf.physical) == (Pte(0x14D7), 0x5000));
    assert!(rt; tables.lookup(0x12) == Some(Pte(0x14D7)));
    assert!(rt; fault_of(tables, Access::Fetch) == Some(WalkFault::PageFault));
}

fn is_cleared(rt: &impl Abort, tables: &mut Tables) {
    assert!(rt; tables.test_and_clear_accessed(0x12) == Some(true));
    assert!(rt; tables.test_and_clear_accessed(0x12) == Some(false));
    assert!(rt; tables.lookup(0x12) == Some(Pte(0x1497)));
}

fn is_unmapped(rt: &impl Abort, tables: &mut Tables) {
    assert!(rt; fault_of(tables, Access::Load) == None);
    assert!(rt; tables.unmap(0x12) == Some(Pte(0x14D7)));
    assert!(rt; (tables.unmap(0x12), tables.lookup(0x12)) == (None, None));
    assert!(rt; fault_of(tables, Access::Load) == Some(WalkFault::PageFault));
}

#[test]
fn a_page_is_mapped_walked_and_unmapped(rt: HostRuntime) {
    let mut tables = Tables::new(rt.alloc()).expect(&rt, "memory");
    nothing_is_mapped(&rt, &mut tables);
    is_mapped(&rt, &mut tables);
    is_walked(&rt, &mut tables);
    is_cleared(&rt, &mut tables);
    is_unmapped(&rt, &mut tables);
}

#[test]
fn an_address_is_split(rt: HostRuntime) {
    let mut tables = Tables::new(rt.alloc()).expect(&rt, "no fault");
    tables
        .map(0x7FFFF, 7, Rights::READ, false)
        .expect(&rt, "no fault");
    tables
        .map(0x12, 5, Rights::READ | Rights::EXECUTE, false)
        .expect(&rt, "no fault");
    // The words that the root has: pointers to tables 1 and 2.
    tables.set(0, 0x1FF, 0x8000_0401).expect(&rt, "no fault");
    tables.set(0, 0, 0x8000_0801).expect(&rt, "no fault");
    assert!(rt; tables.lookup(0x7FFFF) == Some(Pte(0x1C13)));
    assert!(rt; tables.lookup(0x12) == Some(Pte(0x141B)));
    assert!(rt;
        tables
            .walk(0x7FFF_FFF0, Access::Load)
            .expect(&rt, "no fault")
            .physical
            == 0x7FF0
    );
    assert!(rt;
        tables
            .walk(0x1_2ABC, Access::Fetch)
            .expect(&rt, "no fault")
            .physical
            == 0x5ABC
    );
}

#[test]
fn root_words_are_read(rt: HostRuntime) {
    let mut tables = Tables::new(rt.alloc()).expect(&rt, "no fault");
    // A superpage, one that is not aligned, a pointer with U, and a pointer to no table.
    let cases = [
        (0x0010_0053, Ok(0x0041_2ABC)),
        (0x0000_0453, Err(WalkFault::PageFault)),
        (0x8000_0411, Err(WalkFault::PageFault)),
        (0x8000_0401, Err(WalkFault::AccessFault)),
    ];
    for (word, answer) in cases {
        tables.set(0, 0, word).expect(&rt, "no fault");
        let walked = tables
            .walk(0x1_2ABC, Access::Load)
            .map(|leaf| leaf.physical);
        assert!(rt; walked == answer, "{word:#x}");
    }
}

#[test]
fn pages_have_entries_of_their_own(rt: HostRuntime) {
    let mut tables = PageTables::new(rt.alloc()).expect(&rt, "no fault");
    tables
        .map(0x12, 5, Rights::READ | Rights::WRITE, true)
        .expect(&rt, "no fault");
    tables
        .map(0x13, 6, Rights::READ, true)
        .expect(&rt, "no fault");
    assert!(rt;
        tables
            .walk(0x1_2ABC, Access::Store)
            .expect(&rt, "no fault")
            .physical
            == 0x5ABC
    );
    assert!(rt; tables.walk(0x1_3000, Access::Store) == Err(WalkFault::PageFault));
    assert!(rt; tables.test_and_clear_accessed(0x13) == Some(true));
    assert!(rt; tables.lookup(0x12) == Some(Pte(0x14D7)));
    assert!(rt; tables.unmap(0x12) == Some(Pte(0x14D7)));
    assert!(rt; (tables.lookup(0x12), tables.lookup(0x13)) == (None, Some(Pte(0x1813))));
}

#[test]
fn a_page_is_mapped_again(rt: HostRuntime) {
    let mut tables = PageTables::new(rt.alloc()).expect(&rt, "no fault");
    tables
        .map(0x12, 5, Rights::READ, true)
        .expect(&rt, "no fault");
    tables.unmap(0x12);
    tables.remap(0x12, 6, Rights::READ | Rights::WRITE, false, true);
    assert!(rt; tables.lookup(0x12) == Some(Pte(0x1897)));
    assert!(rt; tables.is_dirty(0x12));
}
