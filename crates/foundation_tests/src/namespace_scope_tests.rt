use namespace_scope::Scope;
use std::test::Fail;

// A call, or a look-up with what it is to find.
enum Step {
    Push,
    Declare(&'static str, u32),
    Pop,
    Finds(&'static str, Option<u32>),
}

const STEPS: [Step; 32] = [
    Step::Finds("p", None),
    Step::Push,
    Step::Declare("p", 1),
    Step::Declare("q", 2),
    Step::Finds("p", Some(1)),
    Step::Declare("p", 3),
    Step::Finds("p", Some(3)),
    Step::Finds("q", Some(2)),
    Step::Finds("", None),
    Step::Push,
    Step::Finds("p", Some(3)),
    Step::Declare("q", 4),
    Step::Declare("", 5),
    Step::Push,
    Step::Declare("p", 6),
    Step::Declare("pq", 7),
    Step::Finds("p", Some(6)),
    Step::Finds("q", Some(4)),
    Step::Finds("", Some(5)),
    Step::Finds("pq", Some(7)),
    Step::Pop,
    Step::Finds("p", Some(3)),
    Step::Finds("q", Some(4)),
    Step::Finds("pq", None),
    Step::Pop,
    Step::Finds("p", Some(3)),
    Step::Finds("q", Some(2)),
    Step::Finds("", None),
    Step::Pop,
    Step::Finds("p", None),
    Step::Finds("q", None),
    Step::Finds("pq", None),
];

#[test]
fn an_inner_declaration_hides_the_outer_one_until_its_level_ends(
    rt: HostRuntime,
) -> Result<(), Fail> {
    let mut scope = Scope::new(rt.alloc());
    let mut depth = 0u32;
    for step in &STEPS {
        match step {
            Step::Push => {
                scope.push()?;
                assert!(rt; depth < 9);
                depth += 1;
            }
            Step::Declare(prefix, name) => {
                assert!(rt; depth > 0);
                scope.declare(prefix, *name)?;
            }
            Step::Pop => {
                assert!(rt; depth > 0);
                scope.pop();
                depth -= 1;
            }
            Step::Finds(prefix, name) => assert_eq!(rt; scope.lookup(prefix), *name),
        }
    }
    assert_eq!(rt; depth, 0);
    Ok(())
}
