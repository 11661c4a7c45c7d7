// The search for classes, depth first. A node that is visited stands on a stack until its class is known. A visit
// returns the lowest position on the stack that it has seen an edge to; where that is the visited node's own position, the
// nodes from there on are a class.
ghost use Rattle.std.specs.Prelude.{◌≡◌, ℕ, ◌+◌, ◌^◌, ◌<◌, ◌≤◌, ◌++◌, ◌∷◌, [], length, take, slice_index, slice_set, IfOk, OnOk, vec_len};
ghost use Rattle.pac_graph.specs.Graph.{HasEdge, Reach};
ghost use Rattle.pac_graph.specs.declared.search.Mark.TheVariants.{Fresh, Open};
ghost use Rattle.pac_graph.specs.Search.{mark_of, changes_left, IsSearch, IsSearched, IsVisited, GaveClass};

use crate::Digraph;
use pac_base::NoMemory;

// How far the search has come with a node.
#[derive(Clone, Copy)]
pub(crate) enum Mark {
    // not visited
    Fresh,
    // on the stack, at this position
    Open(usize),
    // of this class
    Done(usize),
}

#[derive(Drop)]
pub(crate) struct Search {
    pub(crate) marks: Vec<Mark>,
    stack: Vec<usize>,
    pub(crate) count: usize,
}

impl Search {
    // The whole search.
    pub(crate) fn run(graph: &Digraph) -> Result<Search, NoMemory>
        ensures { IfOk result (λ s. IsSearched (HasEdge graph.now) graph.now.nodes s.marks.items s.stack.items s.count) }
    {
        let mut search = Search::new(graph)?;
        for node in 0..graph.nodes() {
            if let Mark::Fresh = search.marks[node] {
                search.visit(graph, node)?;
            }
        }
        Ok(search)
    }

    fn new(graph: &Digraph) -> Result<Search, NoMemory>
        ensures search { IfOk result (λ s. IsSearch (HasEdge graph.now) graph.now.nodes s.marks.items s.stack.items s.count) }
        ensures empty { IfOk result (λ s. length s.stack.items ≡ 0) }
    {
        let marks = vec![in graph.alloc(); Mark::Fresh; graph.nodes()]?;
        Ok(Search {
            marks,
            stack: Vec::new(graph.alloc()),
            count: 0,
        })
    }

    // Puts a node on the stack.
    fn open(&mut self, node: usize) -> Result<usize, NoMemory>
        requires { node < vec_len self.old.marks }
        ensures offset { IfOk result (λ offset. (offset ≡ length self.old.stack.items) × (self.new.marks.items ≡ slice_set self.old.marks.items node (Open offset))) }
        ensures stack { OnOk result (self.new.stack.items ≡ self.old.stack.items ++ node ∷ []) }
        ensures count { self.new.count ≡ self.old.count }
    {
        let offset = self.stack.len();
        self.stack.push(node)?;
        self.marks[node] = Mark::Open(offset);
        Ok(offset)
    }

    // Takes the nodes from a position on off the stack: they are a class.
    fn close(&mut self, from: usize)
        requires from { from < length self.old.stack.items }
        requires within { (p : ℕ) → p < length self.old.stack.items → slice_index self.old.stack.items p < vec_len self.old.marks }
        requires opened { (p : ℕ) → p < length self.old.stack.items → mark_of self.old.marks.items (slice_index self.old.stack.items p) ≡ Open p }
        requires count { self.old.count < 2 ^ 32 }
        ensures stack { self.new.stack.items ≡ take from self.old.stack.items }
        ensures count { self.new.count ≡ self.old.count + 1 }
        ensures size { length self.new.marks.items ≡ length self.old.marks.items }
        ensures marks { GaveClass self.old.marks.items self.new.marks.items self.old.stack.items from (length self.old.stack.items) self.old.count }
        ensures changes { changes_left self.new.marks.items + length self.old.stack.items ≤ changes_left self.old.marks.items + from }
    {
        for offset in from..self.stack.len() {
            let node = self.stack[offset];
            self.marks[node] = Mark::Done(self.count);
        }
        self.stack.truncate(from);
        self.count += 1;
    }

    // Visits a node, and all that is reached from it and not visited yet. The calls stand in one another no deeper than
    // there are nodes.
    fn visit(&mut self, graph: &Digraph, node: usize) -> Result<usize, NoMemory>
        requires search { IsSearch (HasEdge graph.now) graph.now.nodes self.old.marks.items self.old.stack.items self.old.count }
        requires node { node < graph.now.nodes }
        requires fresh { mark_of self.old.marks.items node ≡ Fresh }
        requires linked { (p : ℕ) → p < length self.old.stack.items → Reach (HasEdge graph.now) (slice_index self.old.stack.items p) node }
        ensures { IfOk result (λ low. IsVisited (HasEdge graph.now) graph.now.nodes self.old.marks.items self.old.stack.items self.new.marks.items self.new.stack.items self.new.count node low) }
    {
        let offset = self.open(node)?;
        let mut low = offset;
        let mut at = 0;
        while let Some(to) = graph.next(node, at) {
            at = to + 1;
            match self.marks[to] {
                Mark::Fresh => {
                    let below = self.visit(graph, to)?;
                    low = low.min(below);
                }
                Mark::Open(there) => {
                    low = low.min(there);
                }
                Mark::Done(_) => {}
            }
        }
        if low == offset {
            self.close(offset);
        }
        Ok(low)
    }
}
