//! A node that gets its inputs as lines.
use super::super::networks::network_of;
use super::super::words::{nodes, word, words_of};
use super::inputs::input_of;
use super::messages::heard;
use super::outputs::{item_text, message_text, packet_text, table_text};
use consolidator::{Mail, Message};
use epoch_packet::Packet;
use node_core::{Input, Node, Output, Outputs, Stop};
use path_vector::ShortestAll;
use std::alloc::Global;
use std::process::Abort;
use std::test::Fail;
use topology::NodeId;

/// A node, the messages that it sent, and the packet that it last handed out.
#[derive(Drop)]
pub struct Desk {
    // `None` after a stop.
    node: Option<Node<ShortestAll>>,
    messages: Vec<Message>,
    packet: Option<Box<Packet>>,
}

impl Desk {
    /// The node of this number in the network of this file.
    pub fn new(rt: &impl Abort, alloc: Global, file: &str, id: u16) -> Result<Desk, Fail> {
        let topology = network_of(rt, alloc, file)?;
        let node = Node::new(alloc, topology, NodeId::new(id), ShortestAll)?;
        Ok(Desk {
            node: Some(node),
            messages: Vec::new(alloc),
            packet: None,
        })
    }

    pub fn node(&self) -> Result<&Node<ShortestAll>, Fail> {
        Ok(self.node.as_ref().ok_or("a node")?)
    }

    fn handle(&mut self, input: Input) -> Result<Outputs, Fail> {
        let node = self.node.take().ok_or("a node")?;
        let (node, outputs) = node.handle(input)?;
        self.node = Some(node);
        Ok(outputs)
    }

    /// Gives the node an input. It takes it, or stops for this reason.
    pub fn stops(&mut self, rt: &impl Abort, input: Input, stop: Option<Stop>) -> Result<(), Fail> {
        let node = self.node.take().ok_or("a node")?;
        match node.handle(input) {
            Ok(_) => assert!(rt; stop.is_none()),
            Err(met) => assert_eq!(rt; Some(met), stop),
        }
        Ok(())
    }

    // The input of a line. A message of the node's own comes back by its number, and so does the packet; everything
    // else is in the line.
    fn input(&mut self, alloc: Global, text: &str) -> Result<Input, Fail> {
        let words = words_of(alloc, text)?;
        match word(&words, 0)? {
            "hear" => heard(&self.messages, &words),
            "go" => self.gone_on(alloc, &words),
            _ => input_of(alloc, &words),
        }
    }

    // The packet, with the links to these nodes up.
    fn gone_on(&mut self, alloc: Global, words: &[&str]) -> Result<Input, Fail> {
        let up = nodes(alloc, words, 1)?;
        let packet = self.packet.take().ok_or("a packet")?;
        Ok(Input::Hop { packet, up })
    }

    // Gives a message the next number, from 1, and keeps it.
    fn posted(&mut self, alloc: Global, mail: Mail) -> Result<String, Fail> {
        let to = mail.to.number();
        let text = message_text(alloc, &mail.message)?;
        self.messages.push(mail.message)?;
        Ok(format!(in alloc; "{} to {to}: {text}", self.messages.len())?)
    }

    // Keeps a packet.
    fn forwarded(
        &mut self,
        alloc: Global,
        next: NodeId,
        packet: Box<Packet>,
    ) -> Result<String, Fail> {
        let text = packet_text(alloc, next, &packet)?;
        self.packet = Some(packet);
        Ok(text)
    }

    fn output_text(&mut self, alloc: Global, output: Output) -> Result<String, Fail> {
        match output {
            Output::Logged { index } => Ok(format!(in alloc; "logged {index}")?),
            Output::Cut { epoch } => Ok(format!(in alloc; "cut {}", epoch.number())?),
            Output::Send(out) => item_text(alloc, &out),
            Output::Mail(mail) => self.posted(alloc, mail),
            Output::Published(table) => table_text(alloc, &table),
            Output::Forward { next, packet } => self.forwarded(alloc, next, packet),
            Output::Ended { id, end } => Ok(format!(in alloc; "ended {id} {end:?}")?),
        }
    }

    // What the node handed out, one after another.
    fn list_text(&mut self, alloc: Global, list: Vec<Output>) -> Result<String, Fail> {
        let mut text = String::new(alloc);
        for output in list {
            if !text.is_empty() {
                text.push_str("; ")?;
            }
            text.push_str(&self.output_text(alloc, output)?)?;
        }
        Ok(text)
    }

    // What the node handed out, or why it did nothing.
    fn outputs_text(&mut self, alloc: Global, outputs: Outputs) -> Result<String, Fail> {
        match outputs {
            Outputs::Did(list) => self.list_text(alloc, list.into_vec()?),
            Outputs::Idle(reason) => Ok(format!(in alloc; "idle {reason:?}")?),
        }
    }

    // The result of these words, which the node admits.
    fn answer(&mut self, rt: &impl Abort, alloc: Global, text: &str) -> Result<String, Fail> {
        let input = self.input(alloc, text)?;
        assert!(rt; self.node()?.fits(&input), "{text}");
        let outputs = self.handle(input)?;
        self.outputs_text(alloc, outputs)
    }

    /// A crash: the node loses what it holds as a consolidator.
    pub fn forget(&mut self) {
        if let Some(node) = self.node.take() {
            self.node = Some(node.forget());
        }
    }

    /// Each line has an input, and what the node hands out for it, or why it does nothing.
    pub fn run(&mut self, rt: &impl Abort, alloc: Global, lines: &str) -> Result<(), Fail> {
        for line in lines.lines() {
            let (comes, expected) = line.split_once('|').ok_or("what comes")?;
            let told = self.answer(rt, alloc, comes.trim())?;
            assert_eq!(rt; told.as_str(), expected.trim(), "{line}");
        }
        Ok(())
    }

    /// Each line has an input, and whether the node admits it.
    pub fn admits(&mut self, rt: &impl Abort, alloc: Global, lines: &str) -> Result<(), Fail> {
        for line in lines.lines() {
            let (text, answer) = line.split_once(": ").ok_or("an answer")?;
            let input = self.input(alloc, text)?;
            assert!(rt; self.node()?.fits(&input) == (answer == "yes"), "{line}");
        }
        Ok(())
    }
}
