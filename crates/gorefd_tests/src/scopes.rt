//! Tests what names are bound to in packages with faults. In a text the comment `/*@*/` marks a use, and `/*^*/` the declaring identifier
//! to which it is bound. Without the second mark the use is bound to no declaration of the package.
use crate::assertion::{file, holds};
use base_files::{Path, Place};
use go_ast::FileTree;
use go_parser::parse_file;
use go_scope::declare::declare;
use go_scope::named::name_imports;
use go_scope::table::ScopeTable;
use std::alloc::Global;
use std::process::Abort;

/// The path of the one file.
fn path(rt: &impl Abort, alloc: Global) -> Path {
    Path::read(alloc, "a/a.go", 2).ok().expect(rt, "a path")
}

/// The parsed file of a package of one file.
fn files(rt: &impl Abort, alloc: Global, text: &str) -> Vec<FileTree> {
    let file = file(rt, alloc, text.as_bytes());
    let tree = parse_file(alloc, &path(rt, alloc), &file)
        .ok()
        .expect(rt, "a tree");
    let mut files = Vec::new(alloc);
    files.push(tree).ok().expect(rt, "memory");
    files
}

/// The table of a package, with the names of imported packages unknown.
fn plain_table<'a>(rt: &impl Abort, alloc: Global, files: &'a [FileTree]) -> ScopeTable<'a> {
    let plain = declare(alloc, files).expect(rt, "memory");
    let none: [Option<&[u8]>; 0] = [];
    name_imports(alloc, plain, &none).expect(rt, "memory")
}

/// The offset of the declaring identifier to which the identifier at a place is bound. `None` where it is bound to nothing or to a
/// predeclared name.
fn declared_at(table: &ScopeTable<'_>, place: &Place) -> Option<usize> {
    let declaration = table.resolve(place)?;
    let identifier = table.identifiers().as_slice().get(declaration)?;
    if identifier.role.is_implied() {
        return None;
    }
    let file = table.files().get(identifier.place.file)?;
    Some(file.offset(identifier.place.index))
}

/// The offset after a comment of five bytes.
fn behind(text: &str, comment: &str) -> Option<usize> {
    text.find(comment).map(|at| at.saturating_add(5))
}

/// Asserts that the marked use is bound to the marked declaring identifier.
fn is_bound(rt: &impl Abort, alloc: Global, text: &str) {
    let files = files(rt, alloc, text);
    let table = plain_table(rt, alloc, &files);
    let place = Place {
        path: path(rt, alloc),
        offset: behind(text, "/*@*/").expect(rt, "a use"),
    };
    holds(rt, table.identifier_beginning_at(&place).is_some());
    holds(rt, declared_at(&table, &place) == behind(text, "/*^*/"));
}

/// Packages of one file, one on each line. An import without a name declares nothing, as no package's name is known.
const BINDINGS: &str = r#"package a; func f(/*^*/p int) { var p int; /*@*/p = 1 }
package a; var /*^*/x int; var x int; func f() { print(/*@*/x) }
package a; var /*^*/x int; var x int; func f() { /*@*/x = 1 }
package a; var x int; var /*@*/x int
package a; var /*^*/int string; var x /*@*/int
package a; import q "b"; var /*^*/q int; func f() { print(/*@*/q) }
package a; func f() { var x int = /*@*/x; print(x) }
package a; func init() {}; func f() { /*@*/init() }
package a; import "b/q"; func f() { print(/*@*/q) }
package a; import /*@*/"b/q""#;

#[test]
fn bindings(rt: HostRuntime) {
    for text in BINDINGS.lines() {
        is_bound(&rt, rt.alloc(), text);
    }
}
