//! Where and why a text is refused, in words.

use crate::error::Error;
use crate::network::Network;
use diagnosis::{
    Explanation, explain_inputs, explain_inputs_text, explain_net, explain_net_text, explain_script,
};
use std::alloc::{AllocError, Global};
use world::node_count;

impl Error {
    // An explanation that has no more than the error itself.
    fn bare(self, alloc: Global) -> Result<Explanation, AllocError> {
        Ok(Explanation {
            line: None,
            column: None,
            words: String::from_str(alloc, self.words())?,
        })
    }

    /// Where the text with this error is refused, and why: the line, the column, and what stands there and was expected, which other
    /// declaration is meant, which limit was passed, and so on. `Explanation::lines` shows it. Of inputs and scripts it wants the network too;
    /// without it there are the words alone. Refuses for want of memory alone.
    pub fn explained_in(
        self,
        alloc: Global,
        text: &str,
        network: Option<&Network>,
    ) -> Result<Explanation, AllocError> {
        match (self, network) {
            (Error::NetText(fault), _) => explain_net_text(alloc, text, fault),
            (Error::Net(fault), _) => explain_net(alloc, text, fault),
            (Error::InputsText(fault), _) => explain_inputs_text(alloc, text, fault),
            (Error::Inputs(fault), Some(network)) => {
                explain_inputs(alloc, text, &network.net, fault)
            }
            (Error::Script(fault), Some(network)) => {
                explain_script(alloc, text, node_count(&network.net) as u8, fault)
            }
            _ => self.bare(alloc),
        }
    }

    /// The column, from 1 and in bytes, at which the text with this error is refused on its line: of a network's the one at which the
    /// token begins, or the text's end; of an inputs text the first byte with which the line can't go on, or the first one of a name; of a
    /// script, whose network isn't known here, the line's first. None where the error has no line.
    pub fn column_in(self, alloc: Global, text: &str) -> Result<Option<usize>, AllocError> {
        if self.line().is_none() {
            return Ok(None);
        }
        let explanation = self.explained_in(alloc, text, None)?;
        match explanation.column {
            Some(column) => Ok(Some(column)),
            None => Ok(Some(1)),
        }
    }
}
