//! Items for a network's inputs, by the inputs' names.

ghost use Rattle.std.specs.Prelude.{◌≡◌, ◌<◌, ◌^◌, ◌++◌, ◌∷◌, [], IfErr, IfOk, IsOkUnless, length, map, List, ℤ};
ghost use Rattle.net_check.specs.Binding.{Binds};
ghost use Rattle.net_text.specs.Trees.{input_tree};
ghost use Rattle.protocol.specs.Node.Common.{Fits, network_of};
ghost use Rattle.cobaltmidge.specs.Texts.{IsItemsError, given_line};
ghost use Rattle.cobaltmidge.specs.declared.error.Error.TheVariants.{NoMemory};

use crate::error::{Error, inputs_error};
use crate::network::Network;
use net_check::{Inputs, Net, bind};
use net_text::{InputLine, Name, RawInputs};
use std::alloc::{AllocError, Global};

/// Items for a network's inputs, as lists of numbers by the inputs' names, and not as a text.
#[derive(Drop)]
pub struct Items<'a> {
    pub alloc: Global,
    pub network: &'a Network,
    /// What was given by now, as the lines of a text would give it.
    pub lines: Vec<InputLine>,
}

// What is given to an input, behind so many others.
fn line_of(alloc: Global, before: usize, name: &str, items: &[i64]) -> Result<InputLine, AllocError>
    requires { before < 2 ^ 63 }
    ensures { IfOk result (λ line. input_tree line ≡ given_line before name.now items.now) }
{
    Ok(InputLine {
        name: Name::new(String::from_str(alloc, name)?, before + 1),
        items: Vec::from_slice(alloc, items)?,
    })
}

// The items of such lines for a network's inputs.
fn inputs_of_lines(alloc: Global, net: &Net, lines: Vec<InputLine>) -> Result<Inputs, Error>
    ensures inputs { IfOk result (Binds net.now.channel_names.items (network_of net.now.program)
        (map input_tree lines.items)) }
    ensures fitting { IfOk result (Fits (network_of net.now.program)) }
    ensures err { IfErr result (IsItemsError net.now (map input_tree lines.items)) }
    ensures accepted { (lists : List (List ℤ)) → Binds net.now.channel_names.items
        (network_of net.now.program) (map input_tree lines.items) lists
        → IsOkUnless result NoMemory }
{
    match bind(alloc, net, RawInputs { lines }) {
        Ok(inputs) => Ok(inputs),
        Err(fault) => Err(inputs_error(fault)),
    }
}

impl<'a> Items<'a> {
    /// No items yet.
    pub(crate) fn new(alloc: Global, network: &'a Network) -> Items<'a>
        ensures network { result.network ≡ network.entry }
        ensures none { result.lines.items ≡ [] }
    {
        Items {
            alloc,
            network,
            lines: Vec::new(alloc),
        }
    }

    /// These items besides, for the input of this name. Refuses for want of memory alone: what is wrong with a name is found by `inputs`.
    pub fn with(self, name: &str, items: &[i64]) -> Result<Items<'a>, Error>
        ensures network { IfOk result (λ given. given.network ≡ self.entry.network) }
        ensures given { IfOk result (λ given. map input_tree given.lines.items
            ≡ map input_tree self.entry.lines.items
            ++ given_line (length self.entry.lines.items) name.now items.now ∷ []) }
        ensures err { IfErr result (λ error. error ≡ NoMemory) }
    {
        let Items {
            alloc,
            network,
            mut lines,
        } = self;
        let Ok(line) = line_of(alloc, lines.len(), name, items) else {
            return Err(Error::NoMemory);
        };
        match lines.push(line) {
            Ok(()) => Ok(Items {
                alloc,
                network,
                lines,
            }),
            Err(_) => Err(Error::NoMemory),
        }
    }

    /// The items as the network's inputs. Refused is what would be refused of a text with these lines: a name that no input has (11) or that
    /// was given before (10), too many items (15), and an input to which nothing was given (18). The line is the number of the list, from 1.
    pub fn inputs(self) -> Result<Inputs, Error>
        // Each input has exactly the items that were given by its name.
        ensures inputs { IfOk result (Binds self.entry.network.now.net.value.channel_names.items
            (network_of self.entry.network.now.net.value.program) (map input_tree self.entry.lines.items)) }
        // They are inputs for this network.
        ensures fitting { IfOk result (Fits (network_of self.entry.network.now.net.value.program)) }
        ensures err { IfErr result (IsItemsError self.entry.network.now.net.value
            (map input_tree self.entry.lines.items)) }
        // What gives each input its items isn't refused.
        ensures accepted { (lists : List (List ℤ))
            → Binds self.entry.network.now.net.value.channel_names.items
            (network_of self.entry.network.now.net.value.program) (map input_tree self.entry.lines.items) lists
            → IsOkUnless result NoMemory }
    {
        let Items {
            alloc,
            network,
            lines,
        } = self;
        inputs_of_lines(alloc, &network.net, lines)
    }
}
