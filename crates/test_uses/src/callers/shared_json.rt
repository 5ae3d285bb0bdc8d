//! JSON values: what no contract says of them.
use crate::made::text_of;
use maps::TreeMap;
use sequence::Sequence;
use std::process::Abort;
use std::thread::Builder;
use testing::{SMALL_STACK, again, holds, ok, same, same_at};
use uses::shared_json::Value;
use uses::shared_json::path::Step;
use uses::shared_json::text::ParseError;

fn parsed(rt: &(impl Abort + AllocGlobal), text: &str) -> Value {
    ok!(rt, Value::parse(rt.alloc(), text, 127))
}

fn member(rt: &(impl Abort + AllocGlobal), name: &str) -> Step {
    Step::Member(text_of(rt, name))
}

static EQUAL: [&str; 2] = [
    "{\"b\": [1, -2, 0.5, true], \"a\": {\"c\": null, \"d\": \"\\u0041\"}}",
    "{\"a\":{\"d\":\"A\",\"c\":null},\"b\":[1,-2,5e-1,true]}",
];

static DIFFERENT: [&str; 4] = [
    "{\"a\": {\"c\": null, \"d\": \"A\"}, \"b\": [1, -2, 0.5]}",
    "{\"a\": {\"d\": \"A\"}, \"b\": [1, -2, 0.5, true]}",
    "{\"a\": {\"c\": null, \"d\": \"A\"}, \"b\": [1, -2, 0.5, false]}",
    "{\"a\": {\"c\": null, \"d\": \"A\"}, \"b\": [1.0, -2, 0.5, true]}",
];

#[test]
fn values_are_compared(rt: HostRuntime) {
    let one = parsed(&rt, EQUAL[0]);
    holds!(&rt, one == parsed(&rt, EQUAL[1]));
    for text in &DIFFERENT {
        same_at!(&rt, *text, one == parsed(&rt, text), false);
    }
    ok!(&rt, one.to_text(rt.alloc()));
}

// A text, the number of levels that are allowed, and the reason of an error: none, the levels or the syntax. Contracts
// let each error be that of memory.
static READ: [(&str, usize, u8); 12] = [
    ("[[1]]", 2, 0),
    ("[[1]]", 1, 1),
    ("{\"a\": {\"b\": [0]}}", 3, 0),
    ("{\"a\": {\"b\": [0]}}", 2, 1),
    ("[[], [], {}]", 2, 0),
    ("\"[[[\"", 0, 0),
    ("7", 0, 0),
    ("", 5, 2),
    ("[1,]", 5, 2),
    ("[1] 2", 5, 2),
    ("1e999", 5, 2),
    ("\"\\ud800\"", 5, 2),
];

#[test]
fn texts_are_refused_by_name(rt: HostRuntime) {
    for (text, levels, expected) in &READ {
        let reason = match Value::parse(rt.alloc(), text, *levels) {
            Ok(_) => 0,
            Err(ParseError::TooDeep) => 1,
            Err(ParseError::Syntax(_)) => 2,
            Err(ParseError::Memory(_)) => 3,
        };
        same_at!(&rt, *text, reason, *expected);
    }
}

// Whether the path leads to one list in both values.
fn shares(old: &Value, new: &Value, path: &[Step]) -> bool {
    match (old.at(path), new.at(path)) {
        (Some(Value::List(old)), Some(Value::List(new))) => Sequence::ptr_eq(old, new),
        _ => false,
    }
}

#[test]
fn an_edit_shares_all_else(rt: HostRuntime) {
    let old = parsed(&rt, "{\"a\": [[1], [2]], \"b\": [3]}");
    let mut new = again!(&rt, old);
    let path = [member(&rt, "a"), Step::Item(1)];
    ok!(&rt, new.set(rt.alloc(), &path, Value::Null));
    same!(&rt, shares(&old, &new, &path[..1]), false);
    same!(
        &rt,
        shares(&old, &new, &[member(&rt, "a"), Step::Item(0)]),
        true
    );
    same!(&rt, shares(&old, &new, &[member(&rt, "b")]), true);
}

static SCALARS: [&str; 8] = [
    "null",
    "true",
    "-70",
    "1.5e3",
    "\"\"",
    "\"a\\u00e9\\n\\\"\"",
    "[]",
    "{}",
];

static NAMES: [&str; 4] = ["", "a", "b", "\\\u{1}"];

// Puts a scalar, or a list or an object of the last values, behind the values.
fn grow(rt: &(impl Abort + AllocGlobal), values: &mut Vec<Value>, random: usize) {
    let scalar = parsed(rt, SCALARS[random % 8]);
    let value = match random / 8 % 3 {
        0 => scalar,
        1 => {
            let mut items = ok!(rt, vec![in rt.alloc(); scalar]);
            if let Some(last) = values.pop() {
                ok!(rt, items.push(last));
            }
            list(rt, items)
        }
        _ => object(rt, values, random / 24),
    };
    ok!(rt, values.push(value));
}

fn list(rt: &(impl Abort + AllocGlobal), items: Vec<Value>) -> Value {
    Value::List(ok!(rt, Sequence::from_items(rt.alloc(), items)))
}

fn object(rt: &(impl Abort + AllocGlobal), values: &mut Vec<Value>, random: usize) -> Value {
    let mut members = TreeMap::new();
    for name in &NAMES[..random % 4] {
        let name = text_of(rt, name);
        let value = values.pop().unwrap_or(Value::Null);
        drop(ok!(rt, members.insert(rt.alloc(), name, value)));
    }
    Value::Map(members)
}

// The next number of a linear congruential generator.
fn next(number: u64) -> u64 {
    number
        .wrapping_mul(6_364_136_223_846_793_005)
        .wrapping_add(1_442_695_040_888_963_407)
}

#[test]
fn random_values_are_read_back(rt: HostRuntime) {
    let mut random = 1u64;
    for _ in 0..1_000 {
        let mut values = Vec::new(rt.alloc());
        for _ in 0..12 {
            random = next(random);
            grow(&rt, &mut values, (random >> 40) as usize);
        }
        let value = list(&rt, values);
        let text = ok!(&rt, value.to_text(rt.alloc()));
        same!(&rt, parsed(&rt, text.as_str()), value);
    }
}

// An edit drops what it replaces, and `end` drops all parts. In the end the handle of the test is the only one.
#[test]
fn texts_end_with_their_values(rt: HostRuntime) {
    let (alloc, text) = (rt.alloc(), text_of(&rt, ""));
    let member = || Value::Text(again!(&rt, &text));
    let mut members = TreeMap::new();
    drop(ok!(&rt, members.insert(alloc, again!(&rt, &text), member())));
    let items = vec![in alloc; member(), member(), Value::Map(members)];
    let old = list(&rt, ok!(&rt, items));
    let mut new = again!(&rt, &old);
    ok!(&rt, new.set(alloc, &[Step::Item(0)], Value::Null));
    new.end(alloc);
    old.end(alloc);
    holds!(&rt, text.is_unique());
}

#[test]
fn a_deep_value_ends_on_a_small_stack(rt: HostRuntime) {
    let alloc = rt.alloc();
    let mut value = Value::Null;
    for _ in 0..100_000 {
        value = list(&rt, ok!(&rt, vec![in alloc; value]));
    }
    let small = Builder::new().stack_size(SMALL_STACK);
    ok!(&rt, small.spawn(&rt, move || value.end(alloc))).join(&rt);
}
