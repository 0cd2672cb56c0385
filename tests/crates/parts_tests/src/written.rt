//! The parts of a tree as they are written.
use node_tree::Tree;
use std::alloc::Allocator;
use tree_parts::{PartFault, WrittenPart, write_counters, write_name, write_object};
use xdr_wire::{Reader, Wire, Writer};

fn write_all<A: Allocator + Copy>(
    alloc: A,
    tree: &Tree<A>,
    writer: &mut Writer<A>,
) -> Result<(), PartFault> {
    write_counters(tree, writer)?;
    let mut at = 0;
    for _ in 0..100 {
        let Some(number) = tree.number_after(at) else {
            break;
        };
        write_object(tree, alloc, number, writer)?;
        at = number;
    }
    let mut at = 0;
    for _ in 0..100 {
        let Some(name) = tree.any_after(at) else {
            break;
        };
        write_name(name, writer)?;
        at = name.cookie();
    }
    Ok(())
}

#[test]
fn the_parts_of_the_sample(rt: HostRuntime) {
    let a = rt.alloc();
    let (Ok(tree), Ok(mut writer)) = (Tree::sample(a), Writer::new(a, 4096)) else {
        panic!(rt; "no memory");
    };
    assert!(rt; write_all(a, &tree, &mut writer).is_ok());
    let mut reader = Reader::new(writer.bytes());
    let Ok(WrittenPart::Counters(counters)) = WrittenPart::read(&mut reader) else {
        panic!(rt; "no counters");
    };
    assert!(rt; counters == (4, (4, (4, 5))));
    for wanted in 1..4u64 {
        let Ok(WrittenPart::Object(None, number, (_, (bytes, (owner, _))), last)) =
            WrittenPart::read(&mut reader) else {
            panic!(rt; "no object");
        };
        let (change, (_, (_, stamp))) = last;
        assert!(rt; number == wanted && change == wanted && stamp == wanted);
        assert!(rt;
            (bytes.bytes == b"hi".as_slice()) == (number == 2) && (owner == 1001) == (number == 2)
        );
    }
    for (wanted, text) in [(3u64, &b"notes"[..]), (4, &b"pub"[..])] {
        let Ok(WrittenPart::Name(cookie, directory, name, child)) = WrittenPart::read(&mut reader)
        else {
            panic!(rt; "no name");
        };
        assert!(rt;
            cookie == wanted && directory == 1 && name.bytes == text && child == wanted - 1
        );
    }
    assert!(rt; reader.is_empty());
}
