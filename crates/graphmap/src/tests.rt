use crate::adding::*;
use crate::map::*;
use crate::questions::*;
use crate::removing::*;
use keys::kinds::*;
use keys::nodes::*;
use keys::weights::*;
use rows::cells::*;
use rows::memory::*;
use table::slot::*;
use table::table::*;

#[test]
fn a_map_of_parts_with_a_node_and_no_link(rt: HostRuntime) {
    let (a, b) = (Account(7), Account(8));
    let mut slots = [Slot::new(a, RowHead::empty()); 2];
    let mut pairs = [Slot::new((a, a), Price(0)); 1];
    let mut cells = [Cell::new(a); 2];
    let mut nodes = Table::new(&mut slots);
    let Err(w) = nodes.find(&a) else {
        return assert!(rt; false, "an empty table has no node");
    };
    nodes.append(a, RowHead::empty(), w);
    let links = Table::new(&mut pairs);
    let map = GraphMap::from_parts(Kind::Directed, nodes, links, Rows::new(&mut cells));
    assert_eq!(rt; map.degree(a), Some(0));
    assert_eq!(rt; map.degree(b), None);
    let (kind, mut nodes, mut links, mut rows) = map.into_parts();
    assert_eq!(rt; (nodes.len(), links.len(), rows.room()), (1, 0, 1));
    let added = add_edge(kind, &mut nodes, &mut links, &mut rows, a, b, Price(5));
    assert!(rt; added.is_ok());
    assert_eq!(rt; degree(kind, &nodes, &links, rows.as_slice(), b), Some(1));
    let removed = remove_edge(kind, &mut nodes, &mut links, &mut rows, a, b);
    assert_eq!(rt; removed, Some(Price(5)));
    assert_eq!(rt; degree(kind, &nodes, &links, rows.as_slice(), b), Some(0));
}
