// The lines of a page's metadata: the table of its statements by the texts that they are written with. All
// that stands between two addresses or numbers of a page is one text.
ghost use Rattle.std.specs.Prelude.{◌≡◌, ◌<◌, ◌++◌, codes, length};
ghost use Rattle.rdf_terms.specs.Canon.{canonical_line};
ghost use Rattle.template_fill.specs.Metadata.{graph_at};
ghost use Rattle.hydra_controls.specs.LineTexts.{IsLineAt, text_of, text_of_line};
ghost use Rattle.hydra_controls.specs.Facts.{AreFacts, addresses_on, closing_of, counts_of, form_of, links_of, mappings_of, next_quad, previous_quad, quads_of, topic_of, version_quad};

use crate::facts::PageFacts;
use crate::line_text::LineText;
use crate::text_parts::TextParts;

impl<'a> PageFacts<'a> {
    // ---- forms of lines

    /// A line by what stands in front of the text of its graph: an opening, and the texts of its subject
    /// and its object, each with what stands behind it.
    fn line_of(
        self,
        opening: &'a str,
        subject: TextParts<'a>,
        object: TextParts<'a>,
    ) -> LineText<'a>
        ensures { text_of_line result ≡ opening.now ++ (text_of subject.entry ++
            (text_of object.entry ++ (graph_at (addresses_on self.entry) ++ codes "> .\n"))) }
    {
        LineText {
            opening,
            subject,
            object,
            graph: self.page_then(self.number, "#metadata> .\n"),
        }
    }

    /// A line in which nothing but the graph differs from page to page.
    fn fixed_line(self, front: &'a str) -> LineText<'a>
        ensures { text_of_line result ≡ front.now ++ (graph_at (addresses_on self.entry) ++ codes "> .\n") }
    {
        let nothing = TextParts::new("", "");
        self.line_of(front, nothing, nothing)
    }

    // ---- lines

    /// The lines of `topic`.
    fn topic_line(self, i: usize) -> LineText<'a>
        requires { i < 3 }
        ensures { IsLineAt (topic_of self.entry) i (text_of_line result) }
    {
        if i == 0 {
            let graph = self.page_then(
                self.number,
                "#metadata> <http://xmlns.com/foaf/0.1/primaryTopic> <",
            );
            let page = self.page_then(self.number, "> <");
            return self.line_of("<", graph, page);
        }
        if i == 1 {
            let data_set = TextParts::new(
                self.base,
                "#dataset> <http://rdfs.org/ns/void#subset> <",
            );
            let first = self.page_then(1, "> <");
            return self.line_of("<", data_set, first);
        }
        let searched = TextParts::new(
            self.base,
            "#dataset> <http://www.w3.org/ns/hydra/core#search> _:form",
        );
        let form = TextParts::new("", " <");
        self.line_of("<", searched, form)
    }

    /// The lines of `form`.
    fn form_line(self, i: usize) -> LineText<'a>
        requires facts { AreFacts self }
        requires within { i < 2 }
        ensures { IsLineAt (form_of self.entry) i (text_of_line result) }
    {
        if i == 0 {
            let front = "_:form <http://www.w3.org/ns/hydra/core#template> \"";
            let template = TextParts::new(self.base, "{?subject,predicate,object}\" <");
            let nothing = TextParts::new("", "");
            return self.line_of(front, template, nothing);
        }
        self.fixed_line(
            "_:form <http://www.w3.org/ns/hydra/core#variableRepresentation> <http://www.w3.org/ns/hydra/core#ExplicitRepresentation> <",
        )
    }

    /// What stands in front of the graph's text in the lines of `mappings`.
    fn mapping_text(self, i: usize) -> &'a str
        requires { i < 9 }
        ensures { IsLineAt (mappings_of self.entry) i
            (result.now ++ (graph_at (addresses_on self.entry) ++ codes "> .\n")) }
    {
        if i == 0 {
            return "_:form <http://www.w3.org/ns/hydra/core#mapping> _:s <";
        }
        if i == 1 {
            return "_:s <http://www.w3.org/ns/hydra/core#variable> \"subject\" <";
        }
        if i == 2 {
            return "_:s <http://www.w3.org/ns/hydra/core#property> <http://www.w3.org/1999/02/22-rdf-syntax-ns#subject> <";
        }
        if i == 3 {
            return "_:form <http://www.w3.org/ns/hydra/core#mapping> _:p <";
        }
        if i == 4 {
            return "_:p <http://www.w3.org/ns/hydra/core#variable> \"predicate\" <";
        }
        if i == 5 {
            return "_:p <http://www.w3.org/ns/hydra/core#property> <http://www.w3.org/1999/02/22-rdf-syntax-ns#predicate> <";
        }
        if i == 6 {
            return "_:form <http://www.w3.org/ns/hydra/core#mapping> _:o <";
        }
        if i == 7 {
            return "_:o <http://www.w3.org/ns/hydra/core#variable> \"object\" <";
        }
        "_:o <http://www.w3.org/ns/hydra/core#property> <http://www.w3.org/1999/02/22-rdf-syntax-ns#object> <"
    }

    /// The lines of `mappings`.
    fn mapping_line(self, i: usize) -> LineText<'a>
        requires { i < 9 }
        ensures { IsLineAt (mappings_of self.entry) i (text_of_line result) }
    {
        self.fixed_line(self.mapping_text(i))
    }

    /// The lines of `counts`.
    fn count_line(self, i: usize) -> LineText<'a>
        requires { i < 4 }
        ensures { IsLineAt (counts_of self.entry) i (text_of_line result) }
    {
        if i == 0 {
            let whole = self.page_then(1, "> <http://rdfs.org/ns/void#subset> <");
            let part = self.page_then(self.number, "> <");
            return self.line_of("<", whole, part);
        }
        if i == 1 {
            let page = self.page_then(
                self.number,
                "> <http://www.w3.org/ns/hydra/core#totalItems> \"",
            );
            let items = TextParts::numbered(
                self.count,
                "\"^^<http://www.w3.org/2001/XMLSchema#integer> <",
            );
            return self.line_of("<", page, items);
        }
        if i == 2 {
            let fragment = self.page_then(self.number, "> <http://rdfs.org/ns/void#triples> \"");
            let triples = TextParts::numbered(
                self.count,
                "\"^^<http://www.w3.org/2001/XMLSchema#integer> <",
            );
            return self.line_of("<", fragment, triples);
        }
        let later = self.page_then(self.number, "> <http://www.w3.org/ns/hydra/core#first> <");
        let first = self.page_then(1, "> <");
        self.line_of("<", later, first)
    }

    /// The line of the link to the next page.
    fn next_line(self) -> LineText<'a>
        requires { self.number < self.last }
        ensures { canonical_line (next_quad self.entry) ≡ text_of_line result }
    {
        let page = self.page_then(self.number, "> <http://www.w3.org/ns/hydra/core#next> <");
        let next = self.page_then(self.number + 1, "> <");
        self.line_of("<", page, next)
    }

    /// The line of the link to the previous page.
    fn previous_line(self) -> LineText<'a>
        requires { 1 < self.number }
        ensures { canonical_line (previous_quad self.entry) ≡ text_of_line result }
    {
        let page = self.page_then(
            self.number,
            "> <http://www.w3.org/ns/hydra/core#previous> <",
        );
        let previous = self.page_then(self.number - 1, "> <");
        self.line_of("<", page, previous)
    }

    /// The line of the version.
    fn version_line(self) -> LineText<'a>
        ensures { canonical_line (version_quad self.entry) ≡ text_of_line result }
    {
        let data_set = TextParts::new(
            self.base,
            "#dataset> <http://www.w3.org/2002/07/owl#versionInfo> \"",
        );
        let version = TextParts::numbered(self.version, "\" <");
        self.line_of("<", data_set, version)
    }

    /// The lines of `previous_and_version`.
    fn closing_line(self, i: usize) -> LineText<'a>
        requires { i < length (closing_of self) }
        ensures { IsLineAt (closing_of self.entry) i (text_of_line result) }
    {
        if 1 < self.number {
            if i == 0 {
                return self.previous_line();
            }
        }
        self.version_line()
    }

    /// The lines of `links_and_version`.
    fn link_line(self, i: usize) -> LineText<'a>
        requires { i < length (links_of self) }
        ensures { IsLineAt (links_of self.entry) i (text_of_line result) }
    {
        if self.number < self.last {
            if i == 0 {
                return self.next_line();
            }
            return self.closing_line(i - 1);
        }
        self.closing_line(i)
    }

    /// The line of the statement in this place.
    pub(crate) fn line(self, i: usize) -> LineText<'a>
        requires facts { AreFacts self }
        requires within { i < length (quads_of self) }
        ensures { IsLineAt (quads_of self.entry) i (text_of_line result) }
    {
        if i < 3 {
            self.topic_line(i)
        } else if i < 5 {
            self.form_line(i - 3)
        } else if i < 14 {
            self.mapping_line(i - 5)
        } else if i < 18 {
            self.count_line(i - 14)
        } else {
            self.link_line(i - 18)
        }
    }
}
