// One case: its tables and trees, and the lines that set them up.
use crate::fault::Fault;
use crate::names::Names;
use crate::state::{ScratchSize, State, Tables};
use crate::tree::Tree;
use crate::words::{first_number, first_word, list, number, two_numbers};
use calls::requests::Request;
use hir::ids::{DeclarationId, IdentifierId};
use hir::span::Span;
use hir::tables::{Function, Identifier, Scope};
use std::alloc::Global;

#[derive(Drop)]
pub struct Case<'a> {
    pub heap: Global,
    pub names: &'a Names,
    pub state: State,
    pub tables: Tables,
    pub parameters: Span,
    pub trees: Vec<Tree>,
    pub requests: Vec<Request>,
    // the case says how much scratch there is; how much stands in the state, whose vectors are there in either case
    scratch_set: bool,
}

impl<'a> Case<'a> {
    // Nothing set up.
    pub fn new(heap: Global, names: &'a Names) -> Case<'a> {
        Case {
            heap,
            names,
            state: State::new(heap),
            tables: Tables {
                scopes: Vec::new(heap),
                functions: Vec::new(heap),
                pool: Vec::new(heap),
            },
            parameters: Span::default(),
            trees: Vec::new(heap),
            requests: Vec::new(heap),
            scratch_set: false,
        }
    }

    // Follows a line that sets a table up.
    pub fn set(&mut self, word: &str, rest: &str) -> Result<(), Fault> {
        match word {
            "identifiers" => self.set_identifiers(rest),
            "identifier" => self.set_identifier(rest),
            "scope" => self.add_scope(rest),
            "function" => self.add_function(rest),
            "parameters" => self.set_parameters(rest),
            "journal" => self.set_journal(rest),
            "scratch" => self.set_scratch(rest),
            "tree" => self.add_tree(rest),
            "row" => self.add_rows(rest),
            "request" => self.add_request(rest),
            _ => Err(Fault::Line),
        }
    }

    // Follows such a line several times.
    pub fn repeat(&mut self, text: &str) -> Result<(), Fault> {
        let (times, line) = first_number(text)?;
        let (word, rest) = first_word(line);
        for _ in 0..times {
            self.set(word, rest)?;
        }
        Ok(())
    }

    // `identifiers N`
    fn set_identifiers(&mut self, text: &str) -> Result<(), Fault> {
        self.state.set_identifiers(self.heap, number(text)?)?;
        Ok(())
    }

    // `identifier I DECLARATION TAG`
    fn set_identifier(&mut self, text: &str) -> Result<(), Fault> {
        let (i, rest) = first_number(text)?;
        let (declaration, tag) = first_number(rest)?;
        let row = Identifier {
            declaration: DeclarationId(declaration),
            tag: number(tag)?,
        };
        let place = self.state.identifiers.get_mut(i as usize);
        *place.ok_or(Fault::Line)? = row;
        Ok(())
    }

    // `scope DEPENDENCIES DECLARATIONS REASSIGNMENTS`
    fn add_scope(&mut self, text: &str) -> Result<(), Fault> {
        let (first, rest) = first_word(text);
        let (second, third) = first_word(rest);
        let dependencies = list(&mut self.tables.pool, first)?;
        let declarations = list(&mut self.tables.pool, second)?;
        let reassignments = list(&mut self.tables.pool, third)?;
        self.tables.scopes.push(Scope {
            dependencies,
            declarations,
            reassignments,
        })?;
        Ok(())
    }

    // `function PARAMETERS NESTED`; `next` is the list of the one function that follows
    fn add_function(&mut self, text: &str) -> Result<(), Fault> {
        let (first, second) = first_word(text);
        let parameters = list(&mut self.tables.pool, first)?;
        let nested = if second == "next" {
            self.next_function()?
        } else {
            list(&mut self.tables.pool, second)?
        };
        self.tables.functions.push(Function { parameters, nested })?;
        Ok(())
    }

    // The list of the one function that follows.
    fn next_function(&mut self) -> Result<Span, Fault> {
        let next = self.tables.functions.len().saturating_add(1);
        let text = next.to_string(self.heap)?;
        list(&mut self.tables.pool, text.as_str())
    }

    // `parameters LIST`
    fn set_parameters(&mut self, text: &str) -> Result<(), Fault> {
        self.parameters = list(&mut self.tables.pool, text)?;
        Ok(())
    }

    // `journal LENGTH COUNT`
    fn set_journal(&mut self, text: &str) -> Result<(), Fault> {
        let (length, count) = two_numbers(text)?;
        self.state.set_journal(self.heap, length as usize)?;
        self.state.count = count as usize;
        Ok(())
    }

    // `scratch WORK MARKS TRAIL`
    fn set_scratch(&mut self, text: &str) -> Result<(), Fault> {
        let (work, rest) = first_number(text)?;
        let (marks, trail) = two_numbers(rest)?;
        let size = ScratchSize {
            work: work as usize,
            marks: marks as usize,
            trail: trail as usize,
        };
        self.state.set_scratch(self.heap, size)?;
        self.scratch_set = true;
        Ok(())
    }

    // `tree`, or `tree ROWS`
    fn add_tree(&mut self, rows: &str) -> Result<(), Fault> {
        let mut tree = Tree::new(self.heap);
        if !rows.is_empty() {
            tree.add_rows(self.names, rows)?;
        }
        self.trees.push(tree)?;
        Ok(())
    }

    // `row ROWS`, into the last tree
    fn add_rows(&mut self, rows: &str) -> Result<(), Fault> {
        match self.trees.last_mut() {
            Some(tree) => tree.add_rows(self.names, rows),
            None => self.add_tree(rows),
        }
    }

    // The place of the tree that a text has the number of, or of the last one.
    pub fn tree_place(&self, text: &str) -> Result<usize, Fault> {
        if text.is_empty() {
            return Ok(self.trees.len().saturating_sub(1));
        }
        let place: u32 = number(text)?;
        Ok(place as usize)
    }

    // `request run TREE PARAMETERS`, `request give I`, `request look I` or `request spell I`
    fn add_request(&mut self, text: &str) -> Result<(), Fault> {
        let (word, rest) = first_word(text);
        let (target, parameters) = first_number(rest)?;
        let id = IdentifierId(target);
        let request = match word {
            "run" => Request::Run(target as usize, list(&mut self.tables.pool, parameters)?),
            "give" => Request::Give(id),
            "look" => Request::Look(id),
            "spell" => Request::Spell(id),
            _ => return Err(Fault::Line),
        };
        self.requests.push(request)?;
        Ok(())
    }

    // The number of rows of the longest tree.
    fn most_rows(&self) -> usize {
        self.trees
            .iter()
            .map(|tree| tree.rows.len())
            .max()
            .unwrap_or(0)
    }

    // Makes enough scratch, unless the case says how much there is.
    pub fn make_scratch(&mut self) -> Result<(), Fault> {
        let needed = ScratchSize {
            work: self.state.identifiers.len(),
            marks: self.tables.functions.len(),
            trail: self.most_rows(),
        };
        if !self.scratch_set && self.state.scratch_is_short(needed) {
            self.state.set_scratch(self.heap, needed)?;
        }
        Ok(())
    }
}
