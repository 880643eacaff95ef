// Calls made of a kind, numbers and the length of a buffer.
use crate::call_of;
use replay_read::names::Kind;

#[test]
fn call_has_its_kind_and_numbers(rt: HostRuntime) {
    let k = call_of(Some(Kind::UpdateWith), 24, &[1, 3, 2]);
    assert!(rt; k.kind == Some(Kind::UpdateWith));
    assert_eq!(rt; [k.a, k.b, k.c, k.room], [1, 3, 2, 24]);
}

#[test]
fn missing_numbers_are_zero(rt: HostRuntime) {
    let k = call_of(Some(Kind::Trim), 0, &[1]);
    assert!(rt; k.kind == Some(Kind::Trim));
    assert_eq!(rt; [k.a, k.b, k.c, k.room], [1, 0, 0, 0]);
}

#[test]
fn call_may_be_of_no_kind(rt: HostRuntime) {
    let k = call_of(Kind::of(29), 7, &[]);
    assert!(rt; k.kind.is_none());
    assert_eq!(rt; [k.a, k.b, k.c, k.room], [0, 0, 0, 7]);
}
