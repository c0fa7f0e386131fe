// Shared pages: each public call, at places on both sides of a page's and of a shelf's edge.

use cif_pages::Paged;
use std::process::Abort;

/// The length of the lists: a shelf and one word more.
const LENGTH: u32 = 131_073;

/// The word that each list begins with at each place.
const WORD: u8 = 7;

// At these places the word is `written`, and elsewhere it is as the list began.
fn expect_words(rt: &impl Abort, list: &Paged<u8>, places: &[u32], written: u8) {
    assert_eq!(rt; list.len(), LENGTH);
    for index in 0..list.len() {
        let want = if places.contains(&index) {
            written
        } else {
            WORD
        };
        assert!(rt; list.get(index) == want, "word {index}");
    }
}

// Writes a word to these places.
fn write(rt: &(impl Abort + AllocGlobal), list: &mut Paged<u8>, places: &[u32], word: u8) {
    for place in places {
        assert!(rt; *place < list.len());
        list.set(rt.alloc(), *place, word).expect(rt, "memory");
    }
}

#[test]
fn writes_of_one_list_are_not_seen_in_another(rt: HostRuntime) {
    let words = vec![in rt.alloc(); WORD; LENGTH as usize].expect(&rt, "memory");
    let copied = Paged::of(rt.alloc(), &words).expect(&rt, "memory");
    let filled = Paged::new(rt.alloc(), LENGTH, WORD).expect(&rt, "memory");
    let places = [0, 1_023, 1_024, 131_071, 131_072];
    for mut list in [copied, filled] {
        let mut other = list.share(rt.alloc()).expect(&rt, "memory");
        write(&rt, &mut list, &places, 255);
        write(&rt, &mut other, &[1_025], 254);
        expect_words(&rt, &list, &places, 255);
        expect_words(&rt, &other, &[1_025], 254);
    }
}

// Also with each allocation failing in turn, as `rt try --test --fail-alloc N` makes it.
#[test]
fn a_write_without_memory_changes_nothing(rt: HostRuntime) {
    let Ok(mut list) = Paged::of(rt.alloc(), &[5u8; 1_025]) else {
        return;
    };
    let Ok(other) = list.share(rt.alloc()) else {
        return;
    };
    assert!(rt; 1_024 < list.len() && 1_024 < other.len());
    let wrote = list.set(rt.alloc(), 1_024, 6).is_ok();
    assert_eq!(rt; list.get(1_024), if wrote { 6 } else { 5 });
    assert_eq!(rt; list.get(1_023), 5);
    assert_eq!(rt; other.get(1_024), 5);
}

// Whether a value of the type may be lent to other threads.
fn is_for_threads<T: Send + Sync>(_value: &T) -> bool {
    true
}

#[test]
fn threads_may_read_a_list(rt: HostRuntime) {
    let bits = Paged::new(rt.alloc(), 3, true).expect(&rt, "memory");
    assert!(rt; is_for_threads(&bits));
}
