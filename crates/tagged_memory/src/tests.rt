// What no clause shows: tags and bytes at places that were worked out by hand.
use crate::Memory;
use cap_format::Cap;
use machine_types::FrameNo;

#[test]
fn a_store_clears_the_tag_of_its_granule(rt: HostRuntime) {
    let f = FrameNo(0);
    let mut memory = Memory::new(rt.alloc(), 2).expect(&rt, "no memory");
    let frames = memory.frames();
    memory.store_cap(f, 0, Cap::root(0, 0x3c));
    let tagged = memory.next_tag(f, 0);
    memory.store(f, 8, 8, 0);
    let tag = memory.load_cap(f, 0).tag;
    let none = memory.next_tag(f, 0);
    assert!(rt; frames == 2);
    assert!(rt; tagged == Some(0));
    assert!(rt; !tag);
    assert!(rt; none == None);
}

#[test]
fn a_byte_clears_the_tag_of_its_granule_alone(rt: HostRuntime) {
    let f = FrameNo(0);
    let mut memory = Memory::new(rt.alloc(), 2).expect(&rt, "no memory");
    memory.store_cap(f, 16, Cap::root(0, 0x3c));
    memory.store_cap(f, 32, Cap::root(0, 0x3c));
    memory.bytes_in(f, 31, &[0]);
    let here = memory.load_cap(f, 16).tag;
    let next = memory.next_tag(f, 0);
    assert!(rt; !here);
    assert!(rt; next == Some(2));
}

#[test]
fn the_lowest_byte_of_a_number_comes_first(rt: HostRuntime) {
    let f = FrameNo(1);
    let mut memory = Memory::new(rt.alloc(), 2).expect(&rt, "no memory");
    memory.store(f, 4, 4, 0x0807_0605_0403_0201);
    let mut bytes = [0xff; 6];
    memory.bytes_out(f, 3, &mut bytes);
    let half = memory.load(f, 6, 2);
    assert!(rt; bytes == [0, 1, 2, 3, 4, 0]);
    assert!(rt; half == 0x0403);
}

#[test]
fn a_copy_has_the_tags_and_stays_when_its_source_is_cleared(rt: HostRuntime) {
    let (from, to) = (FrameNo(0), FrameNo(1));
    let root = Cap::root(0, 0x3c);
    let mut memory = Memory::new(rt.alloc(), 2).expect(&rt, "no memory");
    memory.store_cap(from, 4080, root);
    memory.copy_frame(from, to);
    memory.clear_frame(from);
    let cleared = memory.load_cap(from, 4080);
    let kept = memory.load_cap(to, 4080);
    assert!(rt; cleared == Cap::null());
    assert!(rt; kept == root);
    assert!(rt; memory.next_tag(to, 255) == Some(255));
    assert!(rt; memory.next_tag(to, 256) == None);
}
