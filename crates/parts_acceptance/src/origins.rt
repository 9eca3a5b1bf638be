//! What a process begins with, where several hold it.

use elf_image::Image;
use page_memory::{Page, Rights};
use shared_origins::{SharedBytes, SharedPage};
use std::process::Abort;

#[test]
fn holders_of_a_page_have_rights_of_their_own(rt: HostRuntime) {
    let mut page = Page::zeroed(rt.alloc(), Rights::READ).expect(&rt, "no fault");
    page.put_bytes(3, &[7]);
    let first = SharedPage::new(rt.alloc(), page).expect(&rt, "no fault");
    let mut second = first.share().expect(&rt, "no fault");
    second.set_rights(Rights::READ_WRITE);
    assert!(rt; first.rights() == Rights::READ && second.rights() == Rights::READ_WRITE);
    drop(first);
    let own = second.to_page(rt.alloc()).expect(&rt, "no fault");
    assert!(rt; own.rights() == Rights::READ_WRITE);
    assert!(rt; (second.bytes()[3], own.bytes()[3], own.bytes()[4]) == (7, 7, 0));
}

/// Three bytes that may be shared.
fn bytes_of(rt: &(impl Abort + AllocGlobal)) -> SharedBytes {
    let bytes = vec![in rt.alloc(); 1, 2, 3].expect(rt, "memory");
    SharedBytes::new(rt.alloc(), bytes).expect(rt, "memory")
}

#[test]
fn an_input_outlives_its_first_holder(rt: HostRuntime) {
    let input = bytes_of(&rt);
    let other = input.share().expect(&rt, "no fault");
    drop(input);
    assert!(rt; other.as_slice() == [1, 2, 3].as_slice());
}

#[test]
fn an_image_is_shared_with_its_pages(rt: HostRuntime) {
    let image = Image::from_words(rt.alloc(), &[0x13, 0x73]).expect(&rt, "no fault");
    let other = image.share(rt.alloc()).expect(&rt, "no fault");
    drop(image);
    assert!(rt; (other.entry(), other.pages().len()) == (0x1_0000, 1));
    assert!(rt; other.pages()[0].number == 0x10);
    assert!(rt; other.pages()[0].page.bytes()[4] == 0x73);
}
