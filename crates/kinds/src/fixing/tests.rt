// A fixing over a borrowed tree, and one over another.
ghost use Rattle.std.specs.Prelude.{[], ◌∷◌, refl};
ghost use Rattle.tree.specs.declared.line.Line.TheVariants as lines;

use super::*;
use tree::line::Part;

// One part, named A.
#[derive(Drop)]
struct Lamp {}

impl Tree for Lamp {
    ghost meaning = { λ _. record { line = lines.Part (record { rarity = 0; class = 0; discount = 0; price = 0 }); name = record { head = 65; tail = 0; len = 1 } } ∷ [] };

    ghost ruled = { λ _. refl };

    fn count(&self) -> usize {
        1
    }

    fn line(&self, i: usize) -> Option<Line> {
        (i == 0).then(|| {
            Line::Part(Part {
                rarity: 0,
                class: 0,
                discount: 0,
                price: 0,
            })
        })
    }

    fn name(&self, i: usize) -> Option<Name> {
        (i == 0).then(Name::default)
    }
}

// What line 0 needs, if it is a gate.
fn need<T: Tree>(tree: &T) -> Option<u8> {
    match tree.line(0)? {
        Line::Gate(gate) => Some(gate.need),
        Line::Part(_) => None,
    }
}

#[test]
fn over_one_borrowed_tree(rt: HostRuntime) {
    let lamp = Lamp {};
    let mut failed = Fixing::new(&lamp);
    let mut sound = Fixing::new(&lamp);
    assert!(rt; failed.fix(0, State::Failed).is_ok());
    assert!(rt; sound.fix(0, State::Sound).is_ok());
    assert_eq!(rt; need(&failed), Some(0));
    assert_eq!(rt; need(&sound), Some(1));
    assert_eq!(rt; need(&lamp), None);
}

#[test]
fn over_a_fixing(rt: HostRuntime) {
    let mut below = Fixing::new(Lamp {});
    assert!(rt; below.fix(1, State::Failed).is_err());
    assert!(rt; below.fix(0, State::Failed).is_ok());
    let mut above = Fixing::new(below);
    assert!(rt; above.fix(0, State::Sound).is_err());
    assert_eq!(rt; need(&above), Some(0));
}
