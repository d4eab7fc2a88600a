//! The script that is generated from a number.

ghost use Rattle.std.specs.Prelude.{◌≡◌, ◌≤◌, codes, IfOk, OnOk};
ghost use Rattle.ua_prod.specs.Draws.{state_after};
ghost use Rattle.ua_script.specs.Grammar.{IsWellFormed};
ghost use Rattle.ua_options.specs.declared.words.TheConstants.{SEED};
ghost use Rattle.ua_shell.specs.Generated.{word, number, values_drawn, drawn_block, drawn_vector, drawn_vectors, closing, congruences, generated};

use std::alloc::{AllocError, Global};
use ua_prod::{Lcg, ProdError, random};
use ua_script::{Block, Command, Entry, Item, Items, Mode, Number, Place, Provable, Script, Word};
use ua_table::{Listed, Name, NameError};

/// How many elements the algebra has.
const ELEMENTS: u32 = 3;

/// The arities of its operations.
const ARITIES: &[u8] = &[2, 1];

/// How many generators there are.
const GENERATORS: usize = 4;

/// The width of a generator.
const WIDTH: usize = 7;

/// The place of what no text has.
const NOWHERE: Place = Place { line: 0, column: 0 };

fn number(value: u32) -> Number
    ensures { result ≡ number value }
{
    Number {
        value,
        place: NOWHERE,
    }
}

/// The name of the algebra.
fn name(alloc: Global) -> Result<Name, AllocError>
    ensures { IfOk result (λ name. name ≡ codes "G") }
{
    match Name::new(alloc, b"G") {
        Ok(name) => Ok(name),
        Err(NameError::OutOfMemory) => Err(AllocError),
        Err(NameError::Form) => unreachable!(),
    }
}

fn word(alloc: Global) -> Result<Word, AllocError>
    ensures { IfOk result (λ w. w ≡ word (codes "G")) }
{
    Ok(Word {
        name: name(alloc)?,
        place: NOWHERE,
    })
}

/// The block of the algebra, whose values are drawn first.
fn drawn_block(alloc: Global, lcg: &mut Lcg) -> Result<Block, AllocError>
    ensures block { IfOk result (λ b. b ≡ drawn_block lcg.old) }
    ensures state { OnOk result (lcg.new ≡ state_after lcg.old values_drawn) }
{
    let algebra = match random(alloc, lcg, name(alloc)?, ELEMENTS, ARITIES) {
        Ok(algebra) => algebra,
        Err(ProdError::OutOfMemory) => return Err(AllocError),
        Err(_) => unreachable!(),
    };
    Ok(Block {
        algebra,
        names: Listed::new(Vec::new(alloc)),
    })
}

/// A vector of the next elements.
fn drawn_vector(alloc: Global, lcg: &mut Lcg) -> Result<Items, AllocError>
    ensures vector { IfOk result (λ v. v ≡ drawn_vector lcg.old) }
    ensures state { OnOk result (lcg.new ≡ state_after lcg.old 7) }
{
    let mut values = Vec::with_capacity(alloc, WIDTH)?;
    for _ in 0..WIDTH {
        let value = lcg.draw(ELEMENTS);
        values.push(Entry::Number(number(value)))?;
    }
    Ok(Items {
        values: Listed::new(values),
        place: NOWHERE,
    })
}

/// The generators, drawn one after another.
fn drawn_vectors(alloc: Global, lcg: &mut Lcg) -> Result<Vec<Items>, AllocError>
    ensures { IfOk result (λ vectors. vectors.items ≡ drawn_vectors lcg.old 4) }
{
    let mut vectors = Vec::with_capacity(alloc, GENERATORS)?;
    for _ in 0..GENERATORS {
        vectors.push(drawn_vector(alloc, lcg)?)?;
    }
    Ok(vectors)
}

/// `close G 7 [..] .. count`
fn closing(alloc: Global, gens: Vec<Items>) -> Result<Command, AllocError>
    ensures { IfOk result (λ command. command ≡ closing gens.items) }
{
    let what = Provable::Close {
        algebra: word(alloc)?,
        width: number(WIDTH as u32),
        gens: Listed::new(gens),
    };
    Ok(Command::Ask {
        what,
        mode: Mode::Count,
        cert: false,
    })
}

/// `con G`
fn congruences(alloc: Global) -> Result<Command, AllocError>
    ensures { IfOk result (λ command. command ≡ congruences) }
{
    Ok(Command::Con {
        algebra: word(alloc)?,
    })
}

/// The script that is generated from a number up to `ua_options::SEED`: an algebra, the size of the closure of
/// four vectors, and the congruences of the algebra. What it consists of stands at line and column 0.
pub fn generated_script(alloc: Global, n: u32) -> Result<Script, AllocError>
    requires { n ≤ SEED }
    ensures script { IfOk result (λ script. script ≡ generated n) }
    ensures formed { IfOk result (λ script. IsWellFormed script) }
{
    let mut lcg = Lcg::new(n);
    let block = drawn_block(alloc, &mut lcg)?;
    let gens = drawn_vectors(alloc, &mut lcg)?;
    let first = closing(alloc, gens)?;
    let second = congruences(alloc)?;
    let items = vec![in alloc;
        Item::Block(block),
        Item::Command(first),
        Item::Command(second),
    ]?;
    Ok(Script {
        version: 1,
        items: Listed::new(items),
    })
}
